// Reads an image into lent storage in two passes: judged first, so that a refusal leaves everything untouched.
#![tactic(auto)]

mod fill;
mod hex;
mod judge;
mod line;
mod view;

ghost use Rattle.storage.specs.Layout.{storage_old, storage_out};
ghost use Rattle.reader.specs.Reading.{Read};

use image::{ReadError, ReadRefusal};

pub fn read(
    image: &[u8],
    table: &mut [u64],
    code: &mut [u64],
    const_kinds: &mut [u8],
    const_words: &mut [u64],
    texts: &mut [u8],
) -> Result<usize, ReadRefusal>
    ensures { Read image.now result (storage_old table code const_kinds const_words texts) (storage_out table code const_kinds const_words texts) }
{
    if !storage::is_long_enough(table, code, const_kinds, const_words, texts) {
        return Err(ReadRefusal {
            error: ReadError::ShortStorage,
            line: 0,
        });
    }
    let n = judge::judge(image)?;
    fill::fill_all(image, n, table, code, const_kinds, const_words, texts);
    Ok(n)
}
