//! Words of a line that is written.

ghost use Rattle.std.specs.Prelude.{◌≡◌, ◌++◌, OnOk, OnErr, decimal, length, ◌*◌, take, vec_len};
ghost use Rattle.std.specs.Fmt.{signed_decimal};
ghost use Rattle.zt_text.specs.Transcripts.{hex_spelled as hex_digits_of, hex_text, id_text};
ghost use Rattle.zt_text.specs.Written.{spaced_after, word_text, text_of_words};

use itoa::Buffer;
use zx_base::Memory;

/// A word, by what it says.
#[derive(Clone, Copy)]
pub(crate) enum Word<'a> {
    Name(&'a [u8]),
    Number(u64),
    Signed(i64),
    /// A session's number, as 16 hex digits.
    Session(i64),
    /// Bytes as hex, `-` for none.
    Hex(&'a [u8]),
}

/// Adds a number in decimal. Without memory, what was there stays.
pub fn push_number(out: &mut Vec<u8>, n: u64) -> Result<(), Memory>
    ensures ok { OnOk result (out.new.items ≡ out.old.items ++ decimal n) }
    ensures err { OnErr result (out.new.items ≡ out.old.items) }
{
    let mut buffer = Buffer::new();
    out.extend_from_slice(buffer.format(n).as_bytes())?;
    Ok(())
}

/// Adds a signed number in decimal. Without memory, what was there stays.
pub fn push_signed(out: &mut Vec<u8>, n: i64) -> Result<(), Memory>
    ensures ok { OnOk result (out.new.items ≡ out.old.items ++ signed_decimal n) }
    ensures err { OnErr result (out.new.items ≡ out.old.items) }
{
    let mut buffer = Buffer::new();
    out.extend_from_slice(buffer.format(n).as_bytes())?;
    Ok(())
}

/// Writes two hex digits for each byte.
fn fill_hex_digits(digits: &mut [u8], bytes: &[u8])
    requires { length digits.old ≡ 2 * length bytes.now }
    ensures { digits.new ≡ hex_digits_of bytes.now }
{
    hex::encode_to_slice(bytes, digits).unwrap();
}

/// Adds two hex digits for each byte.
fn push_hex_digits(out: &mut Vec<u8>, bytes: &[u8]) -> Result<(), Memory>
    ensures ok { OnOk result (out.new.items ≡ out.old.items ++ hex_digits_of bytes.now) }
    ensures err { OnErr result (out.new.items ≡ out.old.items) }
{
    let start = out.len();
    let Some(end) = start.checked_add(2 * bytes.len()) else {
        return Err(Memory);
    };
    out.resize(end, 0)?;
    fill_hex_digits(&mut out.as_mut_slice()[start..], bytes);
    Ok(())
}

/// Adds bytes as hex, two lower-case digits for each, and `-` for none. Without memory, what was there stays.
#[tactic(auto, unfolding(crate::specs::Transcripts::hex_text))]
pub fn push_hex(out: &mut Vec<u8>, bytes: &[u8]) -> Result<(), Memory>
    ensures ok { OnOk result (out.new.items ≡ out.old.items ++ hex_text bytes.now) }
    ensures err { OnErr result (out.new.items ≡ out.old.items) }
{
    if bytes.is_empty() {
        out.push(b'-')?;
        Ok(())
    } else {
        push_hex_digits(out, bytes)
    }
}

#[tactic(auto, unfolding(crate::specs::Transcripts::id_text))]
fn push_session(out: &mut Vec<u8>, id: i64) -> Result<(), Memory>
    ensures ok { OnOk result (out.new.items ≡ out.old.items ++ id_text id) }
    ensures err { OnErr result (out.new.items ≡ out.old.items) }
{
    let bytes = id.unsigned_abs().to_be_bytes();
    push_hex_digits(out, &bytes)
}

fn push_word(out: &mut Vec<u8>, word: &Word<'_>) -> Result<(), Memory>
    ensures ok { OnOk result (out.new.items ≡ out.old.items ++ word_text word.now) }
    ensures err { OnErr result (out.new.items ≡ out.old.items) }
{
    match word {
        Word::Name(text) => {
            out.extend_from_slice(text)?;
            Ok(())
        }
        Word::Number(n) => push_number(out, *n),
        Word::Signed(n) => push_signed(out, *n),
        Word::Session(id) => push_session(out, *id),
        Word::Hex(bytes) => push_hex(out, bytes),
    }
}

/// Adds words, each after a blank. Without memory, some of them may have been added.
fn push_spaced(out: &mut Vec<u8>, words: &[Word<'_>]) -> Result<(), Memory>
    ensures ok { OnOk result (out.new.items ≡ out.old.items ++ spaced_after words.now) }
    ensures err { OnErr result (take (vec_len out.old) out.new.items ≡ out.old.items) }
{
    for word in words {
        out.push(b' ')?;
        push_word(out, word)?;
    }
    Ok(())
}

/// Adds a line: its first word, and the others in two parts. Without memory, a front of it may have been added.
fn append_line(
    out: &mut Vec<u8>,
    first: &[u8],
    head: &[Word<'_>],
    words: &[Word<'_>],
) -> Result<(), Memory>
    ensures ok { OnOk result (out.new.items ≡ out.old.items ++ text_of_words first.now (head.now ++ words.now)) }
    ensures err { OnErr result (take (vec_len out.old) out.new.items ≡ out.old.items) }
{
    out.extend_from_slice(first)?;
    push_spaced(out, head)?;
    push_spaced(out, words)?;
    out.push(b'\n')?;
    Ok(())
}

/// Adds a line: its first word, and the others in two parts. Without memory, what was there stays and nothing is added.
pub(crate) fn push_words(
    out: &mut Vec<u8>,
    first: &[u8],
    head: &[Word<'_>],
    words: &[Word<'_>],
) -> Result<(), Memory>
    ensures ok { OnOk result (out.new.items ≡ out.old.items ++ text_of_words first.now (head.now ++ words.now)) }
    ensures err { OnErr result (out.new.items ≡ out.old.items) }
{
    let start = out.len();
    match append_line(out, first, head, words) {
        Ok(()) => Ok(()),
        Err(Memory) => {
            out.truncate(start);
            Err(Memory)
        }
    }
}
