ghost use Rattle.std.specs.Prelude.{◌≡◌, ◌<◌, if◌then◌else◌, nat_lt};
ghost use Rattle.ssi_trackside.specs.Module.{has_bit, with_bit};

/// How many pins a byte of a signal or a track has.
const PINS: u8 = 8;

/// Whether `byte` has the bit of `number`.
pub fn has_bit(byte: u8, number: u8) -> bool
    requires { number < 8 }
    ensures { result ≡ has_bit byte number }
{
    byte >> number & 1 == 1
}

/// The bits of eight pins after the one of `pin` is set or reset. A pin past the last changes none.
pub fn with_pin(bits: u8, pin: u8, on: bool) -> u8
    ensures { result ≡ (if nat_lt pin 8 then with_bit bits pin on else bits) }
{
    if pin >= PINS {
        bits
    } else if on {
        bits | 1 << pin
    } else {
        bits & !(1 << pin)
    }
}
