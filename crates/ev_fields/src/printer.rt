//! How JSON's tokens are written (RFC 8259).

ghost use Rattle.std.specs.Prelude.{◌≡◌, ◌++◌, ◌∷◌, [], cond, IfOk, string_bytes};
ghost use Rattle.std.specs.List.{list_all};
ghost use Rattle.json.specs.Run.{is_plain};
ghost use Rattle.json.specs.Print.{quoted, token_text, begins, ends};
ghost use Rattle.json.specs.Reads.{token_of};
ghost use Rattle.base64.specs.Engines.{standard};
ghost use Rattle.base64.specs.GeneralPurpose.{encode_of};

use base64::engine::general_purpose::STANDARD;
use json::{Token, Writer};
use std::alloc::AllocError;

/// Whether the token wants a comma in front where a value has just ended.
#[inline(always)]
pub fn begins(token: Token<'_>) -> bool
    ensures { result ≡ begins (token_of token.entry) }
{
    !matches!(token, Token::EndObject | Token::EndArray)
}

/// Whether a value ends with the token.
#[inline(always)]
pub fn ends(token: Token<'_>) -> bool
    ensures { result ≡ ends (token_of token.entry) }
{
    !matches!(
        token,
        Token::BeginObject | Token::BeginArray | Token::Key(_)
    )
}

/// The text with one more piece.
#[inline(always)]
pub fn with(mut text: String, more: &str) -> Result<String, AllocError>
    ensures { IfOk result (λ s. string_bytes s ≡ string_bytes text ++ more.now) }
{
    text.push_str(more)?;
    Ok(text)
}

/// The text with a comma at its end, if one is wanted.
#[inline(always)]
pub fn comma_if(text: String, wanted: bool) -> Result<String, AllocError>
    ensures { IfOk result (λ s. string_bytes s ≡ string_bytes text ++ cond wanted (44 ∷ []) []) }
{
    if !wanted {
        return Ok(text);
    }
    with(text, ",")
}

/// The text with one more token at its end, and no comma.
#[inline(always)]
pub fn put(text: String, token: Token<'_>) -> Result<String, AllocError>
    ensures { IfOk result (λ s. string_bytes s ≡ string_bytes text ++ token_text (token_of token.entry)) }
{
    match token {
        Token::BeginObject => with(text, "{"),
        Token::EndObject => with(text, "}"),
        Token::BeginArray => with(text, "["),
        Token::EndArray => with(text, "]"),
        Token::Key(name) => put_key(text, name),
        Token::String(content) => put_quoted(text, content),
        Token::Number(digits) => with(text, digits),
        Token::Bool(true) => with(text, "true"),
        Token::Bool(false) => with(text, "false"),
        Token::Null => with(text, "null"),
        Token::Bad => Ok(text),
    }
}

fn put_key(text: String, name: &str) -> Result<String, AllocError>
    ensures { IfOk result (λ s. string_bytes s ≡ string_bytes text ++ (quoted name.now ++ 58 ∷ [])) }
{
    let text = put_quoted(text, name)?;
    let text = with(text, ":")?;
    Ok(text)
}

fn is_plain(text: &[u8]) -> bool
    ensures { result ≡ list_all is_plain text.now }
{
    text.iter()
        .all(|b| !((*b == b'"' || *b == b'\\') || *b < 0x20))
}

/// A string between quotes.
fn put_quoted(text: String, content: &str) -> Result<String, AllocError>
    ensures { IfOk result (λ s. string_bytes s ≡ string_bytes text ++ quoted content.now) }
{
    if !is_plain(content.as_bytes()) {
        return put_escaped(text, content);
    }
    let text = with(text, "\"")?;
    let text = with(text, content)?;
    let text = with(text, "\"")?;
    Ok(text)
}

/// A string between quotes, of which some bytes are escaped.
fn put_escaped(text: String, content: &str) -> Result<String, AllocError>
    ensures { IfOk result (λ s. string_bytes s ≡ string_bytes text ++ quoted content.now) }
{
    let mut writer = Writer::new(text.into_bytes());
    writer.string(content)?;
    match String::from_utf8(writer.into_inner()) {
        Ok(text) => Ok(text),
        Err(_) => unreachable!(),
    }
}

/// Bytes in base64 between quotes.
pub fn put_coded(text: String, bytes: &[u8]) -> Result<String, AllocError>
    ensures { IfOk result (λ s. string_bytes s ≡ string_bytes text ++ quoted (encode_of standard bytes.now)) }
{
    let mut text = with(text, "\"")?;
    STANDARD.encode_string(bytes, &mut text)?;
    let text = with(text, "\"")?;
    Ok(text)
}
