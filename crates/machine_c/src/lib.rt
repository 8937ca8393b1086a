// The entry points for C, in a static library under their plain names; include/deletion_machine.h says how they are called.
// Each is the function of that name in `machine`, with its promise.
#![tactic(auto)]

ghost use Rattle.std.specs.Prelude.{◌≡◌};
ghost use Rattle.storage.specs.Layout.{storage_in, storage_old, storage_out};
ghost use Rattle.state.specs.States.{state_in, state_seen, state_out};
ghost use Rattle.machine.specs.Face.{said, leaving, version, dm_read, dm_write, dm_check, dm_start, dm_run, dm_returned, dm_text};

use machine::face;

#[unsafe(no_mangle)]
pub extern "C" fn dm_version() -> u32
    ensures { result ≡ version }
{
    face::dm_version()
}

#[unsafe(no_mangle)]
pub extern "C" fn dm_read(
    image: &[u8],
    table: &mut [u64],
    code: &mut [u64],
    const_kinds: &mut [u8],
    const_words: &mut [u64],
    texts: &mut [u8],
    answer: &mut [u32],
) -> u32
    ensures { leaving (said result answer.new) (storage_out table code const_kinds const_words texts) ≡ dm_read image.now (storage_old table code const_kinds const_words texts) answer.old }
{
    face::dm_read(image, table, code, const_kinds, const_words, texts, answer)
}

#[unsafe(no_mangle)]
pub extern "C" fn dm_write(
    table: &[u64],
    code: &[u64],
    const_kinds: &[u8],
    const_words: &[u64],
    texts: &[u8],
    out: &mut [u8],
    answer: &mut [u32],
) -> u32
    ensures { leaving (said result answer.new) out.new ≡ dm_write (storage_in table code const_kinds const_words texts) out.old answer.old }
{
    face::dm_write(table, code, const_kinds, const_words, texts, out, answer)
}

#[unsafe(no_mangle)]
pub extern "C" fn dm_check(
    table: &[u64],
    code: &[u64],
    const_kinds: &[u8],
    const_words: &[u64],
    texts: &[u8],
    answer: &mut [u32],
) -> u32
    ensures { said result answer.new ≡ dm_check (storage_in table code const_kinds const_words texts) answer.old }
{
    face::dm_check(table, code, const_kinds, const_words, texts, answer)
}

#[unsafe(no_mangle)]
pub extern "C" fn dm_start(
    table: &[u64],
    code: &[u64],
    const_kinds: &[u8],
    const_words: &[u64],
    texts: &[u8],
    frames: &mut [u64],
    kinds: &mut [u8],
    words: &mut [u64],
    arg_kinds: &[u8],
    arg_words: &[u64],
    answer: &mut [u32],
) -> u32
    ensures { leaving (said result answer.new) (state_out frames kinds words) ≡ dm_start (storage_in table code const_kinds const_words texts) arg_kinds.now arg_words.now (state_in frames kinds words) answer.old }
{
    face::dm_start(
        table,
        code,
        const_kinds,
        const_words,
        texts,
        frames,
        kinds,
        words,
        arg_kinds,
        arg_words,
        answer,
    )
}

#[unsafe(no_mangle)]
pub extern "C" fn dm_run(
    table: &[u64],
    code: &[u64],
    const_kinds: &[u8],
    const_words: &[u64],
    texts: &[u8],
    frames: &mut [u64],
    kinds: &mut [u8],
    words: &mut [u64],
    budget: u32,
    answer: &mut [u32],
) -> u32
    ensures { leaving (said result answer.new) (state_out frames kinds words) ≡ dm_run (storage_in table code const_kinds const_words texts) budget (state_in frames kinds words) answer.old }
{
    face::dm_run(
        table,
        code,
        const_kinds,
        const_words,
        texts,
        frames,
        kinds,
        words,
        budget,
        answer,
    )
}

#[unsafe(no_mangle)]
pub extern "C" fn dm_returned(
    table: &[u64],
    code: &[u64],
    const_kinds: &[u8],
    const_words: &[u64],
    texts: &[u8],
    frames: &[u64],
    kinds: &[u8],
    words: &[u64],
    answer: &mut [u32],
) -> u32
    ensures { said result answer.new ≡ dm_returned (storage_in table code const_kinds const_words texts) (state_seen frames kinds words) answer.old }
{
    face::dm_returned(
        table,
        code,
        const_kinds,
        const_words,
        texts,
        frames,
        kinds,
        words,
        answer,
    )
}

#[unsafe(no_mangle)]
pub extern "C" fn dm_text(
    table: &[u64],
    code: &[u64],
    const_kinds: &[u8],
    const_words: &[u64],
    texts: &[u8],
    word: u64,
    answer: &mut [u32],
) -> u32
    ensures { said result answer.new ≡ dm_text (storage_in table code const_kinds const_words texts) word answer.old }
{
    face::dm_text(table, code, const_kinds, const_words, texts, word, answer)
}
