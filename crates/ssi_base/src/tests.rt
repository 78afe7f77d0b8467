ghost use Rattle.std.specs.Prelude.{◌<◌, ◌++◌, IsErrOf, decimal};
ghost use Rattle.ssi_base.specs.Digits.{hex_of};
ghost use Rattle.ssi_base.specs.Streams.{Writes};

use crate::{
    Failed, MemSink, MemSource, ReadAll, Sink, StdSink, StdSource, decimal, hex4, read_all,
    write_all,
};
use std::alloc::Global;
use std::io::BufWriter;
use std::test::Fail;

const INPUT: &[u8] = b"file PTS P1 on T1 .";

#[test]
fn decimal_digits(rt: HostRuntime) {
    let table = [
        (0, "0"),
        (9, "9"),
        (10, "10"),
        (99, "99"),
        (100, "100"),
        (131_089, "131089"),
        (2_097_152, "2097152"),
        (18_446_744_073_709_551_615, "18446744073709551615"),
    ];
    for (number, digits) in table {
        assert_eq!(rt; decimal(number).as_slice(), digits.as_bytes());
    }
}

#[test]
fn hexadecimal_digits_of_a_telegram(rt: HostRuntime) {
    let table = [
        ([0x81, 0x01, 0xfe, 0x7e], b"8101FE7E"),
        ([0x45, 0x00, 0xff, 0xba], b"4500FFBA"),
        ([0x9a, 0xbc, 0xde, 0xf0], b"9ABCDEF0"),
    ];
    for (bytes, digits) in table {
        assert_eq!(rt; hex4(bytes).as_slice(), digits.as_slice());
    }
}

fn read_input(alloc: Global, piece: usize, fails: &[u64], limit: usize) -> Result<Vec<u8>, ReadAll>
    requires { 0 < piece }
{
    let Ok(bytes) = INPUT.to_vec(alloc) else {
        return Err(ReadAll::Memory);
    };
    let Ok(fails) = fails.to_vec(alloc) else {
        return Err(ReadAll::Memory);
    };
    read_all(alloc, &mut MemSource::new(bytes, piece, fails), limit)
}

#[test]
fn input_is_read_to_its_end(rt: HostRuntime) -> Result<(), Fail> {
    for piece in [1, 7, 65_536] {
        let read = read_input(rt.alloc(), piece, &[], INPUT.len())?;
        assert_eq!(rt; read.as_slice(), INPUT);
    }
    Ok(())
}

#[test]
fn input_past_the_limit_and_failing_reads(rt: HostRuntime) {
    let alloc = rt.alloc();
    let limit = INPUT.len() - 1;
    for piece in [1, 7, 65_536] {
        assert!(rt; matches!(read_input(alloc, piece, &[], limit), Err(ReadAll::TooLarge)));
    }
    for call in [0, 1, 2, 3] {
        assert!(rt; matches!(read_input(alloc, 7, &[call], 64), Err(ReadAll::Fault)));
    }
    assert!(rt; read_input(alloc, 7, &[4], 64).is_ok());
}

/// No fault comes over a source in memory of which no call is to fail.
fn read_in_memory(alloc: Global, bytes: Vec<u8>, limit: usize) -> Result<Vec<u8>, ReadAll>
    ensures { IsErrOf result ReadAll.Fault → ⊥ }
{
    read_all(
        alloc,
        &mut MemSource::new(bytes, 64, Vec::new(alloc)),
        limit,
    )
}

#[test]
fn input_in_memory(rt: HostRuntime) -> Result<(), Fail> {
    let alloc = rt.alloc();
    let read = read_in_memory(alloc, INPUT.to_vec(alloc)?, INPUT.len())?;
    assert_eq!(rt; read.as_slice(), INPUT);
    Ok(())
}

fn write_number<K: Sink>(sink: &mut K, number: u64) -> Result<(), Failed>
    ensures { Writes (K.written sink.old) (K.written sink.new) (K.faults sink.old) (K.faults sink.new)
        (decimal number) result }
{
    write_all(sink, &decimal(number))
}

fn write_telegram<K: Sink>(sink: &mut K, telegram: [u8; 4]) -> Result<(), Failed>
    ensures { Writes (K.written sink.old) (K.written sink.new) (K.faults sink.old) (K.faults sink.new)
        (hex_of telegram) result }
{
    write_all(sink, &hex4(telegram))
}

/// A line in several pieces is written as their join is.
fn write_line<K: Sink>(
    sink: &mut K,
    number: u64,
    out: [u8; 4],
    taken: &[u8],
    changes: &[u8],
) -> Result<(), Failed>
    ensures { Writes (K.written sink.old) (K.written sink.new) (K.faults sink.old) (K.faults sink.new)
        (decimal number ++ hex_of out ++ taken.now ++ changes.now) result }
{
    write_number(sink, number)?;
    write_telegram(sink, out)?;
    write_all(sink, taken)?;
    write_all(sink, changes)?;
    Ok(())
}

const LINE: &[u8] = b"658102FD7E 4104FBBE - P1:xdn\n";

#[test]
fn line_is_written_whole(rt: HostRuntime) -> Result<(), Fail> {
    let alloc = rt.alloc();
    for piece in [1, 8, 64] {
        let mut sink = MemSink::new(alloc, LINE.len(), piece, Vec::new(alloc))?;
        write_line(
            &mut sink,
            65,
            [0x81, 0x02, 0xfd, 0x7e],
            b" 4104FBBE -",
            b" P1:xdn\n",
        )?;
        assert_eq!(rt; sink.written(), LINE);
        assert_eq!(rt; write_all(&mut sink, b""), Ok(()));
        assert_eq!(rt; write_all(&mut sink, b"."), Err(Failed));
    }
    Ok(())
}

#[test]
fn failed_writes_leave_a_part(rt: HostRuntime) -> Result<(), Fail> {
    let alloc = rt.alloc();
    // The capacity, the most that a call takes, the call that fails, and how many bytes stand then.
    let table = [
        (64, 1, 1, 1),
        (64, 8, 1, 8),
        (64, 8, 0, 0),
        (10, 8, 9, 10),
        (0, 8, 9, 0),
    ];
    for (capacity, piece, call, written) in table {
        let fails = [call].to_vec(alloc)?;
        let mut sink = MemSink::new(alloc, capacity, piece, fails)?;
        assert_eq!(rt; write_all(&mut sink, LINE), Err(Failed));
        assert_eq!(rt; Some(sink.written()), LINE.get(..written));
    }
    Ok(())
}

#[test]
fn readers_and_writers_of_std(rt: HostRuntime) -> Result<(), Fail> {
    let alloc = rt.alloc();
    let read = read_all(alloc, &mut StdSource::new(INPUT), 64)?;
    assert_eq!(rt; read.as_slice(), INPUT);

    let mut written = Vec::new(alloc);
    write_all(&mut StdSink::new(&mut written), LINE)?;
    assert_eq!(rt; written.as_slice(), LINE);

    // A full slice takes nothing.
    let mut room = [0; 4];
    assert_eq!(rt;
        write_all(&mut StdSink::new(room.as_mut_slice()), LINE),
        Err(Failed)
    );
    Ok(())
}

#[test]
fn bytes_held_back_go_out_by_a_flush_alone(rt: HostRuntime) -> Result<(), Fail> {
    let alloc = rt.alloc();
    for flushes in [false, true] {
        let mut written = Vec::new(alloc);
        let mut sink = StdSink::new(BufWriter::with_capacity(alloc, 64, &mut written)?);
        write_all(&mut sink, LINE)?;
        if flushes {
            sink.flush()?;
        }
        let (_, held_back) = sink.into_inner().into_parts();
        let (gone, held) = if flushes {
            (LINE, 0)
        } else {
            (b"".as_slice(), LINE.len())
        };
        assert_eq!(rt; (written.as_slice(), held_back.len()), (gone, held));
    }
    Ok(())
}
