// Sinks, call by call: the exact memory, its last places, and every refusal.
use project::refusal::Refusal;
use sinks::batch::add_all;
use sinks::counter::Counter;
use sinks::judge::Judge;
use sinks::sink::Sink;
use std::test::Fail;
use stores::cells::CellSink;
use stores::text::TextSink;

// Two clauses: five cells, and sixteen bytes.
const FIRST: &[i32] = &[5, -17];

const SECOND: &[i32] = &[3];

// What a batch of two clauses answers to each, the batch being kept whatever they are.
fn keep_both<S: Sink>(
    sink: &mut S,
    first: &[i32],
    second: &[i32],
) -> Result<(Result<(), Refusal>, Result<(), Refusal>), Refusal> {
    let token = sink.open()?;
    let answers = (sink.add(first), sink.add(second));
    sink.keep(token)?;
    Ok(answers)
}

// What a batch of one clause answers to it, the batch being struck.
fn strike_one<S: Sink>(sink: &mut S, clause: &[i32]) -> Result<(), Refusal> {
    let token = sink.open()?;
    let answer = sink.add(clause);
    sink.strike(token)?;
    answer
}

// What a sink with a batch open answers to another one; the first is then struck.
fn open_again<S: Sink>(sink: &mut S) -> Result<(), Refusal> {
    let token = sink.open()?;
    let answer = add_all(sink, &[FIRST]);
    sink.strike(token)?;
    answer
}

// What a sink without a batch answers to keeping, or striking, that of another sink. Two functions are plainer than one that is passed the call.
fn keep_in_another<S: Sink>(sink: &mut S, another: &mut S) -> Result<(), Refusal> {
    let token = sink.open()?;
    another.keep(token)
}

fn strike_in_another<S: Sink>(sink: &mut S, another: &mut S) -> Result<(), Refusal> {
    let token = sink.open()?;
    another.strike(token)
}

#[test]
fn a_batch_at_a_time(rt: HostRuntime) {
    let mut sink = Counter::new();
    assert_eq!(rt; open_again(&mut sink), Err(Refusal::SinkInUse));
    assert_eq!(rt; sink.count(), 0);
    assert!(rt; !sink.is_open());
}

#[test]
fn no_batch_to_close(rt: HostRuntime) {
    let mut another = Counter::new();
    let mut kept = Counter::new();
    assert_eq!(rt;
        keep_in_another(&mut kept, &mut another),
        Err(Refusal::NoBatch)
    );
    assert!(rt; kept.is_open());
    let mut struck = Counter::new();
    assert_eq!(rt;
        strike_in_another(&mut struck, &mut another),
        Err(Refusal::NoBatch)
    );
    assert!(rt; struck.is_open());
}

#[test]
fn cells_of_two_clauses(rt: HostRuntime) -> Result<(), Fail> {
    let mut sink = CellSink::new(vec![in rt.alloc(); 7; 8]?);
    assert_eq!(rt; add_all(&mut sink, &[FIRST, SECOND]), Ok(()));
    assert_eq!(rt; sink.count(), 2);
    assert_eq!(rt; sink.room(), 3);
    assert_eq!(rt;
        &sink.into_memory()[..],
        [5, -17, 0, 3, 0, 0, 0, 0].as_slice()
    );
    Ok(())
}

#[test]
fn the_last_cell_is_used(rt: HostRuntime) -> Result<(), Fail> {
    let mut sink = CellSink::new(vec![in rt.alloc(); 7; 5]?);
    assert_eq!(rt; add_all(&mut sink, &[FIRST, SECOND]), Ok(()));
    assert_eq!(rt; sink.room(), 0);
    assert_eq!(rt; &sink.into_memory()[..], [5, -17, 0, 3, 0].as_slice());
    Ok(())
}

#[test]
fn one_cell_too_few_leaves_zeros(rt: HostRuntime) -> Result<(), Fail> {
    let mut sink = CellSink::new(vec![in rt.alloc(); 7; 4]?);
    assert_eq!(rt;
        add_all(&mut sink, &[FIRST, SECOND]),
        Err(Refusal::NoRoom(0))
    );
    assert!(rt; !sink.is_open());
    assert_eq!(rt; sink.count(), 0);
    assert_eq!(rt; sink.room(), 4);
    assert_eq!(rt; &sink.into_memory()[..], [0, 0, 0, 0].as_slice());
    Ok(())
}

#[test]
fn a_refused_clause_leaves_the_batch(rt: HostRuntime) -> Result<(), Fail> {
    let mut sink = CellSink::new(vec![in rt.alloc(); 7; 4]?);
    assert_eq!(rt;
        keep_both(&mut sink, FIRST, SECOND),
        Ok((Ok(()), Err(Refusal::NoRoom(0))))
    );
    assert_eq!(rt; sink.count(), 1);
    assert_eq!(rt; &sink.into_memory()[..], [5, -17, 0, 0].as_slice());
    Ok(())
}

#[test]
fn a_struck_batch_leaves_what_was_kept(rt: HostRuntime) -> Result<(), Fail> {
    let mut sink = CellSink::new(vec![in rt.alloc(); 7; 6]?);
    assert_eq!(rt; add_all(&mut sink, &[SECOND]), Ok(()));
    assert_eq!(rt; strike_one(&mut sink, FIRST), Ok(()));
    assert_eq!(rt; sink.count(), 1);
    assert_eq!(rt; sink.room(), 4);
    assert_eq!(rt; &sink.into_memory()[..], [3, 0, 0, 0, 0, 0].as_slice());
    Ok(())
}

// What is no clause is told before there is no room.
#[test]
fn no_cells_at_all(rt: HostRuntime) -> Result<(), Fail> {
    let mut sink = CellSink::new(vec![in rt.alloc(); 7; 0]?);
    assert_eq!(rt; strike_one(&mut sink, &[0]), Err(Refusal::NotAClause));
    assert_eq!(rt; strike_one(&mut sink, SECOND), Err(Refusal::NoRoom(0)));
    assert_eq!(rt; sink.into_memory().len(), 0);
    Ok(())
}

#[test]
fn bytes_of_two_clauses(rt: HostRuntime) -> Result<(), Fail> {
    let mut sink = TextSink::new(vec![in rt.alloc(); 7; 18]?);
    assert_eq!(rt; add_all(&mut sink, &[FIRST, SECOND]), Ok(()));
    assert_eq!(rt; sink.count(), 2);
    assert_eq!(rt; sink.room(), 2);
    assert_eq!(rt;
        &sink.into_memory()[..],
        b"h 5 -17 0\nh 3 0\n\0\0".as_slice()
    );
    Ok(())
}

#[test]
fn the_last_byte_is_used(rt: HostRuntime) -> Result<(), Fail> {
    let mut sink = TextSink::new(vec![in rt.alloc(); 7; 16]?);
    assert_eq!(rt; add_all(&mut sink, &[FIRST, SECOND]), Ok(()));
    assert_eq!(rt; &sink.into_memory()[..], b"h 5 -17 0\nh 3 0\n".as_slice());
    Ok(())
}

#[test]
fn one_byte_too_few_leaves_zeros(rt: HostRuntime) -> Result<(), Fail> {
    let mut sink = TextSink::new(vec![in rt.alloc(); 7; 15]?);
    assert_eq!(rt;
        add_all(&mut sink, &[FIRST, SECOND]),
        Err(Refusal::NoRoom(0))
    );
    assert_eq!(rt; &sink.into_memory()[..], [0; 15].as_slice());
    Ok(())
}

#[test]
fn a_struck_line_leaves_the_kept_one(rt: HostRuntime) -> Result<(), Fail> {
    let mut sink = TextSink::new(vec![in rt.alloc(); 7; 18]?);
    assert_eq!(rt; add_all(&mut sink, &[SECOND]), Ok(()));
    assert_eq!(rt; strike_one(&mut sink, FIRST), Ok(()));
    assert_eq!(rt;
        &sink.into_memory()[..],
        b"h 3 0\n\0\0\0\0\0\0\0\0\0\0\0\0".as_slice()
    );
    Ok(())
}

#[test]
fn the_longest_literals(rt: HostRuntime) -> Result<(), Fail> {
    let mut sink = TextSink::new(vec![in rt.alloc(); 7; 24]?);
    assert_eq!(rt; add_all(&mut sink, &[&[-99_999_999, 99_999_999]]), Ok(()));
    assert_eq!(rt;
        &sink.into_memory()[..],
        b"h -99999999 99999999 0\n\0".as_slice()
    );
    Ok(())
}

// A counter refuses as all sinks do: first for want of a batch, then for what is no clause.
#[test]
fn no_clauses_are_refused(rt: HostRuntime) {
    let mut sink = Counter::new();
    assert_eq!(rt; sink.add(&[]), Err(Refusal::NoBatch));
    for clause in [
        &[][..],
        &[0],
        &[1, 0],
        &[100_000_000],
        &[1, -100_000_000],
        &[i32::MIN],
    ] {
        assert_eq!(rt; strike_one(&mut sink, clause), Err(Refusal::NotAClause));
    }
    assert_eq!(rt; strike_one(&mut sink, &[99_999_999, -99_999_999]), Ok(()));
}

#[test]
fn a_counter_counts(rt: HostRuntime) {
    let mut sink = Counter::new();
    assert_eq!(rt; add_all(&mut sink, &[FIRST, SECOND]), Ok(()));
    assert_eq!(rt; strike_one(&mut sink, FIRST), Ok(()));
    assert_eq!(rt; sink.count(), 2);
    assert_eq!(rt; sink.room(), 1_999_999_995);
}

// Variable 1 is true. The byte of 2 is 0, that of 3 is neither 0 nor 1, and 4 has none.
#[test]
fn a_judge_reads_its_bytes(rt: HostRuntime) {
    let values = [1, 0, 2];
    for (clause, met) in [
        (&[1][..], true),
        (&[-1], false),
        (&[2], false),
        (&[-2], true),
        (&[3], false),
        (&[-3], true),
        (&[4], false),
        (&[-4], true),
        (&[2, 3, -1], false),
        (&[2, 3, 1], true),
    ] {
        let mut sink = Judge::new(&values);
        assert_eq!(rt; add_all(&mut sink, &[clause]), Ok(()));
        assert_eq!(rt; sink.admits(), met);
    }
}

#[test]
fn a_judge_forgets_what_is_struck(rt: HostRuntime) {
    let mut sink = Judge::new(&[1]);
    assert_eq!(rt; strike_one(&mut sink, &[-1]), Ok(()));
    assert!(rt; sink.admits());
    assert_eq!(rt; add_all(&mut sink, &[&[1], &[-1]]), Ok(()));
    assert!(rt; !sink.admits());
    assert_eq!(rt; strike_one(&mut sink, &[1]), Ok(()));
    assert!(rt; !sink.admits());
    assert_eq!(rt; sink.count(), 2);
}
