//! A text that is being written. It goes from call to call by value, and each call adds tokens at its end. Base64 is written
//! straight into it, so a text takes one allocation where its room was enough.

ghost use Rattle.std.specs.Prelude.{◌≡◌, ◌++◌, ◌∷◌, [], IfOk, IsUtf8, codes};
ghost use Rattle.base64.specs.Engines.{standard};
ghost use Rattle.base64.specs.GeneralPurpose.{encode_of};
ghost use Rattle.json.specs.Print.{print, IsPrintable};
ghost use Rattle.json.specs.Reads.{token_of};
ghost use Rattle.json.specs.Token.{begin_array, end_array, key, string};
ghost use Rattle.ev_fields.specs.Members.{none, number, number_if, bytes, bytes_if, true_if, text};
ghost use Rattle.ev_fields.specs.Names.{snake};
ghost use Rattle.ev_fields.specs.Open.{IsOpen, Adds, Closes};

use crate::field::Field;
use crate::printer::{begins, comma_if, ends, put, put_coded, with};
use itoa::Buffer;
use json::Token;
use std::alloc::{AllocError, Global};
use std::marker::Model;

/// The text so far, and whether a value has just ended.
#[derive(Drop)]
pub struct Text {
    text: String,
    after_value: bool,
}

impl Model for Text {
    ghost use Rattle.std.specs.Prelude.{List, string_bytes};
    ghost use Rattle.json.specs.Token.{Token as SpecToken, tokens_code};
    ghost use Rattle.json.specs.Lex.{tokens};
    ghost use Rattle.ev_fields.specs.Printed.{IsPrinted};

    ghost Value = { List SpecToken };

    ghost coded = { tokens_code };

    ghost view = { λ p. tokens (string_bytes p.text) };

    ghost invariant = { IsPrinted };
}

impl Text {
    /// An empty text, with room for `room` bytes.
    pub fn with_room(alloc: Global, room: usize) -> Result<Text, AllocError>
        ensures { IfOk result (λ p. p ≡ []) }
    {
        Ok(Text {
            text: String::with_capacity(alloc, room)?,
            after_value: false,
        })
    }

    /// The bytes of the text, without a copy.
    pub fn into_bytes(self) -> Vec<u8>
        ensures text { result.items ≡ print self }
        ensures utf8 { IsUtf8 (print self) }
    {
        let Text { text, .. } = self;
        text.into_bytes()
    }

    /// Writes one token, after a comma where one is due.
    #[inline(always)]
    fn token(self, token: Token<'_>) -> Result<Text, AllocError>
        requires { IsPrintable (token_of token) }
        ensures { IfOk result (λ p. p ≡ self ++ token_of token.entry ∷ []) }
    {
        let Text { text, after_value } = self;
        let text = comma_if(text, after_value & begins(token))?;
        let text = put(text, token)?;
        Ok(Text {
            text,
            after_value: ends(token),
        })
    }

    /// Writes a string that is these bytes in base64, with padding.
    fn coded(self, bytes: &[u8]) -> Result<Text, AllocError>
        ensures { IfOk result (λ p. p ≡ self ++ string (encode_of standard bytes.now) ∷ []) }
    {
        let Text { text, after_value } = self;
        let text = comma_if(text, after_value)?;
        let text = put_coded(text, bytes)?;
        Ok(Text {
            text,
            after_value: true,
        })
    }

    /// Opens an object, which has no members yet.
    #[tactic(auto, using(crate::proofs::Tokens::opened))]
    pub fn begin(self) -> Result<Text, AllocError>
        ensures { IfOk result (λ t. IsOpen self none t) }
    {
        let text = self.token(Token::BeginObject)?;
        Ok(text)
    }

    /// Closes the object that was opened last.
    #[tactic(auto, using(crate::proofs::Tokens::opened))]
    pub fn end(self) -> Result<Text, AllocError>
        ensures { IfOk result (λ t. Closes self t) }
    {
        let text = self.token(Token::EndObject)?;
        Ok(text)
    }

    /// Writes the name of a member, whose value comes next.
    pub fn name(self, name: Field) -> Result<Text, AllocError>
        ensures { IfOk result (λ t. t ≡ self ++ key (snake name) ∷ []) }
    {
        let Text {
            text,
            after_value: wants_comma,
        } = self;
        let text = comma_if(text, wants_comma)?;
        let text = with(text, name.key_text())?;
        Ok(Text {
            text,
            after_value: false,
        })
    }

    /// Writes a number as a string of decimal digits, with its sign where it is negative.
    #[tactic(auto, using(crate::proofs::Tokens::opened), unfolding(crate::specs::Open::fields_tokens, crate::specs::Open::data_tokens, crate::specs::Members::given, crate::specs::Members::number))]
    pub fn number(self, name: Field, n: i64) -> Result<Text, AllocError>
        ensures { IfOk result (λ t. Adds (number name n) self t) }
    {
        let text = self.name(name)?;
        let mut digits = Buffer::new();
        let text = text.token(Token::String(digits.format(n)))?;
        Ok(text)
    }

    /// Writes a number as [`Text::number`] does, and nothing where it is 0.
    #[tactic(auto, using(crate::proofs::Tokens::opened), unfolding(crate::specs::Open::fields_tokens, crate::specs::Members::number_if))]
    pub fn number_if(self, name: Field, n: i64) -> Result<Text, AllocError>
        ensures { IfOk result (λ t. Adds (number_if name n) self t) }
    {
        if n == 0 {
            return Ok(self);
        }
        self.number(name, n)
    }

    /// Writes a string, with escapes where JSON wants them.
    #[tactic(auto, using(crate::proofs::Tokens::opened), unfolding(crate::specs::Open::fields_tokens, crate::specs::Open::data_tokens, crate::specs::Members::given, crate::specs::Members::text))]
    pub fn text(self, name: Field, value: &str) -> Result<Text, AllocError>
        ensures { IfOk result (λ t. Adds (text name value.now) self t) }
    {
        let text = self.name(name)?;
        let text = text.token(Token::String(value))?;
        Ok(text)
    }

    /// Writes bytes as a string of base64, with padding (RFC 4648, section 4).
    #[tactic(auto, using(crate::proofs::Tokens::opened), unfolding(crate::specs::Open::fields_tokens, crate::specs::Open::data_tokens, crate::specs::Members::given, crate::specs::Members::bytes))]
    pub fn bytes(self, name: Field, value: &[u8]) -> Result<Text, AllocError>
        ensures { IfOk result (λ t. Adds (bytes name value.now) self t) }
    {
        let text = self.name(name)?;
        let text = text.coded(value)?;
        Ok(text)
    }

    /// Writes bytes as [`Text::bytes`] does, and nothing where there are none.
    #[tactic(auto, using(crate::proofs::Tokens::opened), unfolding(crate::specs::Open::fields_tokens, crate::specs::Members::bytes_if))]
    pub fn bytes_if(self, name: Field, value: &[u8]) -> Result<Text, AllocError>
        ensures { IfOk result (λ t. Adds (bytes_if name value.now) self t) }
    {
        if value.is_empty() {
            return Ok(self);
        }
        self.bytes(name, value)
    }

    /// Writes the flag `true`, and nothing where it is false.
    #[tactic(auto, using(crate::proofs::Tokens::opened), unfolding(crate::specs::Open::fields_tokens, crate::specs::Open::data_tokens, crate::specs::Members::given, crate::specs::Members::true_if))]
    pub fn true_if(self, name: Field, value: bool) -> Result<Text, AllocError>
        ensures { IfOk result (λ t. Adds (true_if name value) self t) }
    {
        if !value {
            return Ok(self);
        }
        let text = self.name(name)?;
        let text = text.token(Token::Bool(true))?;
        Ok(text)
    }

    /// Writes the name `kv`, the member of an event whose value comes next: a key with its value.
    pub fn kv_name(self) -> Result<Text, AllocError>
        ensures { IfOk result (λ t. t ≡ self ++ key (codes "kv") ∷ []) }
    {
        let text = self.token(Token::Key("kv"))?;
        Ok(text)
    }

    /// Writes the name of a member and opens the list that is its value.
    pub fn begin_list(self, name: Field) -> Result<Text, AllocError>
        ensures { IfOk result (λ t. t ≡ (self ++ key (snake name) ∷ []) ++ begin_array ∷ []) }
    {
        let text = self.name(name)?;
        let text = text.token(Token::BeginArray)?;
        Ok(text)
    }

    /// Closes the list that was opened last.
    pub fn end_list(self) -> Result<Text, AllocError>
        ensures { IfOk result (λ t. t ≡ self ++ end_array ∷ []) }
    {
        let text = self.token(Token::EndArray)?;
        Ok(text)
    }
}
