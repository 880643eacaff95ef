// The desk that a record keeps: put there word for word, and put back (document 02, L8).
#![tactic(auto)]

ghost use Rattle.std.specs.Prelude.{◌≡◌, length};
ghost use Rattle.memory_layout.specs.Layout.{RECORD_WORDS_LEN, RECORD_BYTES_LEN};
ghost use Rattle.memory.specs.WellFormed.{Full};
ghost use Rattle.filed_kept.specs.Kept.{Keeps, KeepsFirst, PutBack};

// Keeps a desk.
fn keep(chunks: &[u32], pieces: &[u32], store: &[u8], words: &mut [u32], bytes: &mut [u8])
    requires full { Full chunks.now pieces.now store.now }
    requires words_len { length words.old ≡ RECORD_WORDS_LEN }
    requires bytes_len { length bytes.old ≡ RECORD_BYTES_LEN }
    ensures { Keeps chunks.now pieces.now store.now words.old bytes.old words.new bytes.new }
{
    memory_texts::put(&mut words[memory_layout::KEPT_CHUNKS..], chunks);
    memory_texts::put(&mut words[memory_layout::KEPT_PIECES..], pieces);
    memory_texts::put(&mut bytes[memory_layout::KEPT_STORE..], store);
}

// Keeps a desk where no call is filed yet; else nothing is written.
pub fn keep_first(
    chunks: &[u32],
    pieces: &[u32],
    store: &[u8],
    words: &mut [u32],
    bytes: &mut [u8],
    count: usize,
)
    requires full { Full chunks.now pieces.now store.now }
    requires words_len { length words.old ≡ RECORD_WORDS_LEN }
    requires bytes_len { length bytes.old ≡ RECORD_BYTES_LEN }
    ensures { KeepsFirst count chunks.now pieces.now store.now words.old bytes.old words.new bytes.new }
{
    if count == 0 {
        keep(chunks, pieces, store, words, bytes);
    }
}

// Puts the kept desk back into the lent tables.
pub fn put_back(
    words: &[u32],
    bytes: &[u8],
    chunks: &mut [u32],
    pieces: &mut [u32],
    store: &mut [u8],
)
    requires full { Full chunks.old pieces.old store.old }
    requires words_len { length words.now ≡ RECORD_WORDS_LEN }
    requires bytes_len { length bytes.now ≡ RECORD_BYTES_LEN }
    ensures { PutBack words.now bytes.now chunks.new pieces.new store.new }
{
    memory_texts::put(
        chunks,
        &words[memory_layout::KEPT_CHUNKS..memory_layout::KEPT_PIECES],
    );
    memory_texts::put(
        pieces,
        &words[memory_layout::KEPT_PIECES..memory_layout::RECORD_WORDS_LEN],
    );
    memory_texts::put(
        store,
        &bytes[memory_layout::KEPT_STORE..memory_layout::RECORD_BYTES_LEN],
    );
}
