use crate::{command_bytes, read_report, report_bytes};

#[test]
fn commands_and_reports_have_their_bytes(rt: HostRuntime) {
    let commands = [
        (5, 2, [0x85, 0x02, 0xFD, 0x7A]),
        (1, 0, [0x81, 0x00, 0xFF, 0x7E]),
        (63, 255, [0xBF, 0xFF, 0x00, 0x40]),
    ];
    for (address, value, bytes) in commands {
        assert!(rt; address >= 1 && address <= 63);
        assert_eq!(rt;
            command_bytes(address, value),
            bytes,
            "command to {address}"
        );
    }
    let reports = [
        (5, 1, [0x45, 0x01, 0xFE, 0xBA]),
        (1, 4, [0x41, 0x04, 0xFB, 0xBE]),
        (63, 255, [0x7F, 0xFF, 0x00, 0x80]),
    ];
    for (address, value, bytes) in reports {
        assert!(rt; address >= 1 && address <= 63);
        assert_eq!(rt; report_bytes(address, value), bytes, "report of {address}");
    }
}

#[test]
fn only_whole_reports_of_the_address_are_read(rt: HostRuntime) {
    let cases = [
        (5, [0x45, 0x01, 0xFE, 0xBA], Some(1)),
        (1, [0x41, 0x04, 0xFB, 0xBE], Some(4)),
        (63, [0x7F, 0xFF, 0x00, 0x80], Some(255)),
        (5, [0x45, 0x03, 0xFC, 0xBA], Some(3)),
        (5, [0x46, 0x01, 0xFE, 0xB9], None),
        (5, [0x47, 0x01, 0xFE, 0xBA], None),
        (5, [0x45, 0x03, 0xFE, 0xBA], None),
        (5, [0x45, 0x01, 0xFF, 0xBA], None),
        (5, [0x45, 0x01, 0xFE, 0xB9], None),
        (5, [0x85, 0x01, 0xFE, 0x7A], None),
        (192, [0x00, 0x01, 0xFE, 0xFF], None),
    ];
    for (address, bytes, value) in cases {
        assert_eq!(rt;
            read_report(address, bytes),
            value,
            "at {address}: {bytes:?}"
        );
    }
}
