//! What the messages of etcd's JSON gateway are made of: the names of their members, the texts that are written member by
//! member, and the members of a parsed text (etcd API reference, "gRPC gateway"; the JSON mapping of proto3; RFC 4648).
//! `ev_json` has the messages.
//!
//! # Writing
//!
//! A [`text::Text`] goes from call to call by value, and each call writes one more member at its end. The clauses say which
//! members the open object then has, as `specs/Members` defines them: numbers of 64 bits are strings of digits, and bytes are
//! base64 with padding.
//!
//! # Reading
//!
//! A [`parsed::Parsed`] is the list of a text's tokens, and a [`place::Place`] a value by where it begins there: no value is built.
//! Its clauses speak of the value in the words of `serde_json`, by `data_at` of `specs/Places`. Each function of [`members`] looks
//! up one member, by its snake case name and otherwise by its camel case name, and gives its value or the [`fault::JsonFault`] that
//! names it. `specs/Kinds` defines each kind and its range.
//!
//! A text that is spelled as expected, without blanks and escapes, is read from its front by the functions of [`straight`], which
//! take no memory but for what they decode. `specs/Straight` says what each took.
#![tactic(auto)]

pub mod fault;
pub mod field;
pub mod members;
mod number;
pub mod parsed;
pub mod place;
mod printer;
pub mod straight;
pub mod text;
