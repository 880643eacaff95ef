// The check of answer 2 for a record beside a desk: its calls, and where it has some the desk that it keeps (document 02, L5 and L8).
#![tactic(auto)]

ghost use Rattle.std.specs.Prelude.{◌≡◌, length};
ghost use Rattle.memory_layout.specs.Layout.{RECORD_WORDS_LEN, RECORD_BYTES_LEN};
ghost use Rattle.memory.specs.WellFormed.{Taken};
ghost use Rattle.check_well_formed.specs.Seen.{Sees};
ghost use Rattle.filed_record.specs.Record.{kept_chunks, kept_pieces, kept_store};
ghost use Rattle.filed_taken.specs.Beside.{BesideSays};

use filed_record::Size;
use memory_used::Used;

// A well-formed record beside a desk: its size, and what the desk that it keeps uses. Without calls that desk is not looked at, and `kept` says nothing.
#[derive(Clone, Copy)]
pub struct Beside {
    pub size: Size,
    pub kept: Used,
}

// The kept desk, checked.
fn kept_desk(source: &[u8], words: &[u32], bytes: &[u8]) -> Option<Used>
    requires words_len { length words.now ≡ RECORD_WORDS_LEN }
    requires bytes_len { length bytes.now ≡ RECORD_BYTES_LEN }
    ensures { Sees (Taken source.now (kept_chunks words.now) (kept_pieces words.now) (kept_store bytes.now))
        (kept_chunks words.now) (kept_pieces words.now) (kept_store bytes.now) result }
{
    check_well_formed::taken(
        source,
        &words[memory_layout::KEPT_CHUNKS..memory_layout::KEPT_PIECES],
        &words[memory_layout::KEPT_PIECES..memory_layout::RECORD_WORDS_LEN],
        &bytes[memory_layout::KEPT_STORE..memory_layout::RECORD_BYTES_LEN],
    )
}

// The record that two slices beside a desk hold, if it is well formed.
pub fn record_taken(source: &[u8], words: &[u32], bytes: &[u8]) -> Option<Beside>
    ensures { BesideSays source.now words.now bytes.now result }
{
    let size = filed_record::judge_record(words, bytes)?;
    if size.count == 0 {
        let kept = Used {
            pieces: 0,
            row: 0,
            byte: 0,
        };
        return Some(Beside { size, kept });
    }
    let kept = kept_desk(source, words, bytes)?;
    Some(Beside { size, kept })
}
