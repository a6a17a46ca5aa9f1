//! What a request that reads still has to look up.

ghost use Rattle.std.specs.Prelude.{◌≡◌, ℤ, Bool, ◌∷◌, ◌++◌, ◌≤ℤ◌, [], pos, true, map, is_some, IfOk, IsTrue, OnOk};
ghost use Rattle.std.specs.List.{flat_map};
ghost use Rattle.zk_model.specs.Paths.{is_path};
ghost use Rattle.zk_model.specs.declared.request.Request.TheVariants as req;
ghost use Rattle.zn_layout.specs.Keys.{DataKey, key_bytes};
ghost use Rattle.zn_reads.specs.Deciding.{is_read};
ghost use Rattle.zn_reads.specs.Wanting.{first_keys, set_watches_keys, with_listing, IsListingDue, AreKeyNeeds, AreListingWants};
ghost use Rattle.zn_view.specs.Lacking.{lacking};
ghost use Rattle.zn_view.specs.Needs.{AreNeeds};
ghost use Rattle.zn_view.specs.Seen.{listed};
ghost use Rattle.zn_view.specs.Views.{about_path, valid};

use crate::keys::{counts_key_of, data_key_of};
use std::alloc::Global;
use zk_model::{Path, Request};
use zn_layout::{head_key, lease_key, valid_path};
use zn_view::{View, Want, Who};
use zx_base::{Bytes, Memory, Seq, Text};

/// A want for each of these keys that was not looked up, each once.
fn lacking(keys: Vec<Bytes>, view: &View) -> Result<Vec<Want>, Memory>
    ensures { IfOk result (λ ws. ws.items ≡ lacking view.now keys.items) }
{
    Ok(view.lacking(Seq::from_vec(keys))?.into_vec())
}

/// A want for each of many keys that was not looked up, each once.
fn lacking_many(keys: &[Bytes], view: &View) -> Result<Vec<Want>, Memory>
    ensures { IfOk result (λ ws. ws.items ≡ lacking view.now keys.now) }
{
    Ok(view.lacking_many(keys)?.into_vec())
}

/// The keys that each request reads: the head's and that of the session's life.
fn first_keys(alloc: Global, who: Who) -> Result<Vec<Bytes>, Memory>
    requires { pos 1 ≤ℤ who.session }
    ensures { IfOk result (λ keys. keys.items ≡ map key_bytes (first_keys who)) }
{
    let mut keys = Vec::new(alloc);
    keys.push(head_key(alloc)?)?;
    keys.push(lease_key(alloc, who.session)?)?;
    Ok(keys)
}

fn push_data(alloc: Global, path: &Path, keys: &mut Vec<Bytes>) -> Result<(), Memory>
    requires { IsTrue (is_path path.now) }
    ensures { OnOk result (keys.new.items ≡ keys.old.items ++ map key_bytes (DataKey path.now ∷ [])) }
{
    keys.push(data_key_of(alloc, path)?)?;
    Ok(())
}

fn push_about(alloc: Global, path: &Path, keys: &mut Vec<Bytes>) -> Result<(), Memory>
    requires { IsTrue (is_path path.now) }
    ensures { OnOk result (keys.new.items ≡ keys.old.items ++ map key_bytes (about_path path.now)) }
{
    keys.push(data_key_of(alloc, path)?)?;
    keys.push(counts_key_of(alloc, path)?)?;
    Ok(())
}

// ---- a request with a path of its own

fn about_wants(alloc: Global, path: &Path, who: Who, view: &View) -> Result<Vec<Want>, Memory>
    requires who { pos 1 ≤ℤ who.session }
    requires valid { IsTrue (is_path path.now) }
    ensures { IfOk result (λ ws. ws.items ≡ lacking view.now (map key_bytes (first_keys who ++ about_path path.now))) }
{
    let mut keys = first_keys(alloc, who)?;
    push_about(alloc, path, &mut keys)?;
    lacking(keys, view)
}

/// What exists, getData and getACL still have to look up.
fn about_needs(alloc: Global, text: &[u8], who: Who, view: &View) -> Result<Vec<Want>, Memory>
    requires { pos 1 ≤ℤ who.session }
    ensures { IfOk result (λ ws. AreKeyNeeds text.now (about_path text.now) who view.now ws.items) }
{
    match valid_path(alloc, text)? {
        Some(path) => about_wants(alloc, &path, who, view),
        None => Ok(Vec::new(alloc)),
    }
}

fn data_wants(alloc: Global, path: &Path, who: Who, view: &View) -> Result<Vec<Want>, Memory>
    requires who { pos 1 ≤ℤ who.session }
    requires valid { IsTrue (is_path path.now) }
    ensures { IfOk result (λ ws. ws.items ≡ lacking view.now (map key_bytes (first_keys who ++ DataKey path.now ∷ []))) }
{
    let mut keys = first_keys(alloc, who)?;
    push_data(alloc, path, &mut keys)?;
    lacking(keys, view)
}

/// What a check still has to look up.
fn check_needs(alloc: Global, text: &[u8], who: Who, view: &View) -> Result<Vec<Want>, Memory>
    requires { pos 1 ≤ℤ who.session }
    ensures { IfOk result (λ ws. AreKeyNeeds text.now (DataKey text.now ∷ []) who view.now ws.items) }
{
    match valid_path(alloc, text)? {
        Some(path) => data_wants(alloc, &path, who, view),
        None => Ok(Vec::new(alloc)),
    }
}

fn first_wants(alloc: Global, who: Who, view: &View) -> Result<Vec<Want>, Memory>
    requires { pos 1 ≤ℤ who.session }
    ensures { IfOk result (λ ws. ws.items ≡ lacking view.now (map key_bytes (first_keys who ++ []))) }
{
    let keys = first_keys(alloc, who)?;
    lacking(keys, view)
}

fn sync_needs(alloc: Global, text: &[u8], who: Who, view: &View) -> Result<Vec<Want>, Memory>
    requires { pos 1 ≤ℤ who.session }
    ensures { IfOk result (λ ws. AreKeyNeeds text.now [] who view.now ws.items) }
{
    match valid_path(alloc, text)? {
        Some(_path) => first_wants(alloc, who, view),
        None => Ok(Vec::new(alloc)),
    }
}

// ---- getChildren

fn is_listed(view: &View, path: &[u8]) -> bool
    ensures { result ≡ is_some (listed view.now path.now) }
{
    match view.listed(path) {
        Some(_) => true,
        None => false,
    }
}

/// Whether the node's children are not listed yet.
fn is_listing_due(view: &View, path: &[u8]) -> bool
    ensures { IsListingDue view.now path.now result }
{
    !is_listed(view, path)
}

fn push_listing(
    alloc: Global,
    path: &Path,
    is_due: bool,
    wants: &mut Vec<Want>,
) -> Result<(), Memory>
    ensures { OnOk result (wants.new.items ≡ with_listing path.now is_due wants.old.items) }
{
    if is_due {
        wants.push(Want::Children(path.copy(alloc)?))?;
    }
    Ok(())
}

fn children_wants(alloc: Global, path: &Path, who: Who, view: &View) -> Result<Vec<Want>, Memory>
    requires who { pos 1 ≤ℤ who.session }
    requires valid { IsTrue (is_path path.now) }
    ensures { IfOk result (λ ws. AreListingWants path.now who view.now ws.items) }
{
    let mut wants = about_wants(alloc, path, who, view)?;
    push_listing(alloc, path, is_listing_due(view, path.bytes()), &mut wants)?;
    Ok(wants)
}

fn children_needs(alloc: Global, text: &[u8], who: Who, view: &View) -> Result<Vec<Want>, Memory>
    requires { pos 1 ≤ℤ who.session }
    ensures names { IfOk result (λ ws. (watch : Bool) → AreNeeds (req.GetChildren text.now watch) who view.now ws.items) }
    ensures stat { IfOk result (λ ws. (watch : Bool) → AreNeeds (req.GetChildren2 text.now watch) who view.now ws.items) }
{
    match valid_path(alloc, text)? {
        Some(path) => children_wants(alloc, &path, who, view),
        None => Ok(Vec::new(alloc)),
    }
}

// ---- setWatches

fn push_valid_data(alloc: Global, text: &[u8], keys: &mut Vec<Bytes>) -> Result<(), Memory>
    ensures { OnOk result (keys.new.items ≡ keys.old.items ++ map key_bytes (map DataKey (valid (text.now ∷ [])))) }
{
    match valid_path(alloc, text)? {
        Some(path) => push_data(alloc, &path, keys),
        None => Ok(()),
    }
}

fn push_datas(alloc: Global, texts: &[Text], keys: &mut Vec<Bytes>) -> Result<(), Memory>
    ensures { OnOk result (keys.new.items ≡ keys.old.items ++ map key_bytes (map DataKey (valid texts.now))) }
{
    for text in texts {
        push_valid_data(alloc, text.as_slice(), keys)?;
    }
    Ok(())
}

fn push_valid_about(alloc: Global, text: &[u8], keys: &mut Vec<Bytes>) -> Result<(), Memory>
    ensures { OnOk result (keys.new.items ≡ keys.old.items ++ map key_bytes (flat_map about_path (valid (text.now ∷ [])))) }
{
    match valid_path(alloc, text)? {
        Some(path) => push_about(alloc, &path, keys),
        None => Ok(()),
    }
}

fn push_abouts(alloc: Global, texts: &[Text], keys: &mut Vec<Bytes>) -> Result<(), Memory>
    ensures { OnOk result (keys.new.items ≡ keys.old.items ++ map key_bytes (flat_map about_path (valid texts.now))) }
{
    for text in texts {
        push_valid_about(alloc, text.as_slice(), keys)?;
    }
    Ok(())
}

fn set_watches_keys(
    alloc: Global,
    datas: &[Text],
    exists: &[Text],
    children: &[Text],
    who: Who,
) -> Result<Vec<Bytes>, Memory>
    requires { pos 1 ≤ℤ who.session }
    ensures { IfOk result (λ keys. keys.items ≡ set_watches_keys who datas.now exists.now children.now) }
{
    let mut keys = first_keys(alloc, who)?;
    push_datas(alloc, datas, &mut keys)?;
    push_datas(alloc, exists, &mut keys)?;
    push_abouts(alloc, children, &mut keys)?;
    Ok(keys)
}

fn set_watches_needs(
    alloc: Global,
    datas: &[Text],
    exists: &[Text],
    children: &[Text],
    who: Who,
    view: &View,
) -> Result<Vec<Want>, Memory>
    requires { pos 1 ≤ℤ who.session }
    ensures { IfOk result (λ ws. (since : ℤ) → AreNeeds (req.SetWatches since exists.now datas.now children.now) who view.now ws.items) }
{
    let keys = set_watches_keys(alloc, datas, exists, children, who)?;
    lacking_many(&keys, view)
}

/// What a request that reads still has to look up: nothing where the view lacks nothing, and where the request's path is not
/// valid. All that the view determines is named at once, each key once. The session's number is at least 1.
pub fn read_needs(
    alloc: Global,
    request: &Request,
    who: Who,
    view: &View,
) -> Result<Vec<Want>, Memory>
    requires kind { is_read request.now ≡ true }
    requires who { pos 1 ≤ℤ who.session }
    ensures { IfOk result (λ ws. AreNeeds request.now who view.now ws.items) }
{
    match request {
        Request::Exists { path, .. } => about_needs(alloc, path.as_slice(), who, view),
        Request::GetData { path, .. } => about_needs(alloc, path.as_slice(), who, view),
        Request::GetAcl { path } => about_needs(alloc, path.as_slice(), who, view),
        Request::GetChildren { path, .. } => children_needs(alloc, path.as_slice(), who, view),
        Request::GetChildren2 { path, .. } => children_needs(alloc, path.as_slice(), who, view),
        Request::Check { path, .. } => check_needs(alloc, path.as_slice(), who, view),
        Request::Sync { path } => sync_needs(alloc, path.as_slice(), who, view),
        Request::SetWatches {
            exists,
            datas,
            children,
            ..
        } => set_watches_needs(
            alloc,
            datas.as_slice(),
            exists.as_slice(),
            children.as_slice(),
            who,
            view,
        ),
        _ => Ok(Vec::new(alloc)),
    }
}
