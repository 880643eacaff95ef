// Filing, withdrawing and freezing on any memory: 2 where it holds no well-formed desk or no well-formed record, then the call (document 02, L5 and L8).
#![tactic(auto)]

ghost use Rattle.filed_record.specs.Promises.{CallFiled, CallWithdrawn, CallFrozen};

use memory::Answer;
use memory_layout::refusal::Refusal;

// Makes the call and files it.
pub fn file(
    source: &[u8],
    chunks: &mut [u32],
    pieces: &mut [u32],
    store: &mut [u8],
    words: &mut [u32],
    bytes: &mut [u8],
    call: &[u8],
) -> Answer
    ensures { CallFiled call.now source.now chunks.old pieces.old store.old words.old bytes.old
        chunks.new pieces.new store.new words.new bytes.new result }
{
    let Some(used) = check_well_formed::taken(source, chunks, pieces, store) else {
        return Answer::from(Refusal::NotWellFormed);
    };
    let Some(beside) = filed_taken::record_taken(source, words, bytes) else {
        return Answer::from(Refusal::NotWellFormed);
    };
    Answer::from(filed::file(
        source,
        chunks,
        pieces,
        store,
        words,
        bytes,
        call,
        beside.size,
        used,
    ))
}

// Withdraws the k-th call.
pub fn withdraw(
    source: &[u8],
    chunks: &mut [u32],
    pieces: &mut [u32],
    store: &mut [u8],
    words: &mut [u32],
    bytes: &mut [u8],
    k: u32,
) -> Answer
    ensures { CallWithdrawn k source.now chunks.old pieces.old store.old words.old bytes.old
        chunks.new pieces.new store.new words.new bytes.new result }
{
    if !check_well_formed::well_formed(source, chunks, pieces, store) {
        return Answer::from(Refusal::NotWellFormed);
    }
    let Some(beside) = filed_taken::record_taken(source, words, bytes) else {
        return Answer::from(Refusal::NotWellFormed);
    };
    let withdrawn = filed::withdraw(
        source,
        chunks,
        pieces,
        store,
        words,
        bytes,
        k,
        beside.size,
        beside.kept,
    );
    match withdrawn {
        Ok(()) => Answer {
            number: 0,
            value: 0,
        },
        Err(refusal) => Answer::from(refusal),
    }
}

// Freezes a range of the desk: 20 where calls are filed.
pub fn freeze(
    source: &[u8],
    chunks: &mut [u32],
    pieces: &mut [u32],
    store: &mut [u8],
    words: &[u32],
    bytes: &[u8],
    start: u32,
    end: u32,
) -> Answer
    ensures { CallFrozen start end source.now chunks.old pieces.old store.old words.now bytes.now
        chunks.new pieces.new store.new result }
{
    let Some(used) = check_well_formed::taken(source, chunks, pieces, store) else {
        return Answer::from(Refusal::NotWellFormed);
    };
    let Some(beside) = filed_taken::record_taken(source, words, bytes) else {
        return Answer::from(Refusal::NotWellFormed);
    };
    if beside.size.count != 0 {
        return Answer::from(Refusal::Frozen);
    }
    Answer::from(edit_freeze::freeze(source, chunks, pieces, store, start, end, used))
}
