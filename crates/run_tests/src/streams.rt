// What is read, written and told by streams and a clock in memory.
use ladr_io::{Clock, MemClock, MemSink, MemSource, ReadAll, read_all, write_all};
use std::test::Fail;

// Whether two answers of a read are the same, of as many bytes.
fn is_same(answer: &Result<Vec<u8>, ReadAll>, wanted: &Result<usize, ReadAll>) -> bool {
    match (answer, wanted) {
        (Ok(bytes), Ok(length)) => bytes.len() == *length,
        (Err(ReadAll::Failed), Err(ReadAll::Failed)) => true,
        (Err(ReadAll::TooLarge), Err(ReadAll::TooLarge)) => true,
        _ => false,
    }
}

// 20,000 bytes are given in four calls of `read`: 8,192, 8,192, 3,616 and none.
#[test]
fn reads_to_the_end_or_to_the_limit(rt: HostRuntime) -> Result<(), Fail> {
    for (length, by_two, limit, failing, wanted, left) in [
        (20_000, false, 20_000, 5, Ok(20_000), 0),
        (20_000, false, 20_000, 4, Err(ReadAll::Failed), 0),
        (20_000, false, 20_000, 3, Err(ReadAll::Failed), 3_616),
        (20_000, false, 20_000, 2, Err(ReadAll::Failed), 11_808),
        (20_000, false, 20_000, 1, Err(ReadAll::Failed), 20_000),
        (20_000, false, 19_999, 5, Err(ReadAll::TooLarge), 0),
        (20_000, false, 10_000, 5, Err(ReadAll::TooLarge), 9_999),
        (5, true, 5, 3, Err(ReadAll::Failed), 1),
        (0, false, 0, 2, Ok(0), 0),
        (0, false, 0, 1, Err(ReadAll::Failed), 0),
        (1, false, 0, 2, Err(ReadAll::TooLarge), 0),
    ] {
        let bytes = vec![in rt.alloc(); b'a'; length]?;
        let piece = if by_two { 2 } else { 20_000 };
        let mut source = MemSource::with_piece(bytes, piece, vec![in rt.alloc(); failing]?);
        let answer = read_all(rt.alloc(), &mut source, limit);
        assert!(rt; is_same(&answer, &wanted) && source.left().len() == left);
    }
    Ok(())
}

#[test]
fn writes_whole_pieces(rt: HostRuntime) -> Result<(), Fail> {
    for (text, by_two, failing, is_written, held) in [
        (b"one".as_slice(), false, 2, true, b"one".as_slice()),
        (b"two", false, 1, false, b""),
        (b"", false, 1, true, b""),
        (b"pieces", true, 3, false, b"piec"),
    ] {
        let piece = if by_two { 2 } else { 20_000 };
        let mut sink = MemSink::with_piece(rt.alloc(), piece, vec![in rt.alloc(); failing]?);
        assert!(rt; write_all(&mut sink, text).is_ok() == is_written && sink.bytes() == held);
    }
    Ok(())
}

#[test]
fn last_reading_repeats(rt: HostRuntime) -> Result<(), Fail> {
    let mut clock = MemClock::new(vec![in rt.alloc(); 5, 6, 1005]?);
    for reading in [5, 6, 1005, 1005] {
        assert!(rt; clock.read() == reading);
    }
    assert!(rt; clock.count() == 4 && MemClock::new(Vec::new(rt.alloc())).read() == 0);
    Ok(())
}
