//! Telegrams: the four bytes that pass between the interlocking and a trackside module.
//!
//! A command carries a byte to the module at an address, a report carries one back. Both have
//! the sender's mark with the address, the byte, and the complement of each, so a telegram with
//! one damaged byte is never taken for a good one. A layer above may rely on the exact bytes of
//! both telegrams, and on `read_report` to tell exactly the reports of an address from all other
//! bytes. The crate stands on nothing else here.
#![tactic(auto)]

ghost use Rattle.std.specs.Prelude.{◌≡◌, ◌≢◌, ℕ, ◌-◌, ◌^◌, ◌<◌, ◌↔◌, [], ◌∷◌, Some, None};
ghost use Rattle.ssi_telegrams.specs.Telegram.{IsAddress, command_telegram_of, report_telegram_of, reported_byte, IsDamaged};

#[cfg(test)]
mod tests;

/// What a command's first byte adds to the address.
const COMMAND: u8 = 128;

/// What a report's first byte adds to the address.
const REPORT: u8 = 64;

/// The telegram that sends `value` to the module at `address`, which is 1 to 63.
pub fn command_bytes(address: u8, value: u8) -> [u8; 4]
    requires { IsAddress address }
    ensures { result ≡ command_telegram_of address value }
{
    telegram(COMMAND + address, value)
}

/// The telegram by which the module at `address`, which is 1 to 63, reports `value`.
pub fn report_bytes(address: u8, value: u8) -> [u8; 4]
    requires { IsAddress address }
    ensures bytes { result ≡ report_telegram_of address value }

    // It reads back at its own address and at no other.
    ensures own { reported_byte address result ≡ Some value }
    ensures foreign { (other : ℕ) → other ≢ address → reported_byte other result ≡ None }
{
    telegram(REPORT + address, value)
}

/// The byte that four bytes report for `address`: `Some` exactly where they are the report of
/// that address with that byte.
///
/// Any `address` may be asked. The bytes of a report go by the same rule at 0 and at 64 to 191,
/// where no module stands; from 192 on no byte is 64 more than the address, and the answer is
/// always `None`.
pub fn read_report(address: u8, bytes: [u8; 4]) -> Option<u8>
    ensures byte { result ≡ reported_byte address bytes }
    ensures exact { (value : ℕ) → (result ≡ Some value) ↔ (bytes ≡ report_telegram_of address value) }

    // A report with exactly one damaged byte is none.
    ensures damaged { (value : ℕ) → value < 2 ^ 8 →
        IsDamaged (report_telegram_of address value) bytes → result ≡ None }
{
    let head = REPORT.checked_add(address)?;
    let [_, value, _, _] = bytes;
    if bytes == telegram(head, value) {
        Some(value)
    } else {
        None
    }
}

/// Examples of the definition, worked by hand: four numbers report a byte, the second of them, and only the whole report does.
pub fn worked_reports()
    ensures lowest { reported_byte 1 (65 ∷ 0 ∷ 255 ∷ 190 ∷ []) ≡ Some 0 }
    ensures highest { reported_byte 63 (127 ∷ 255 ∷ 0 ∷ 128 ∷ []) ≡ Some 255 }
    ensures no_byte { reported_byte 5 (69 ∷ 300 ∷ 0 ∷ 186 ∷ []) ≡ None }
    ensures three { reported_byte 5 (69 ∷ 1 ∷ 254 ∷ []) ≡ None }
    ensures five { reported_byte 5 (69 ∷ 1 ∷ 254 ∷ 186 ∷ 0 ∷ []) ≡ None }
{}

/// Both bytes, each with its complement.
fn telegram(head: u8, value: u8) -> [u8; 4]
    ensures { result ≡ head ∷ value ∷ (255 - value) ∷ (255 - head) ∷ [] }
{
    [head, value, u8::MAX - value, u8::MAX - head]
}
