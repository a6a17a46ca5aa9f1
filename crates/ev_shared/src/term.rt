//! How long leases last.

ghost use Rattle.std.specs.Prelude.{◌≡◌, ◌<◌, ◌++◌, ◌∷◌, [], filter, not, vec_len, vec_capacity};
ghost use Rattle.ev_shared.specs.Terms.{is_over, is_of};

/// How long a lease lasts.
#[derive(Clone, Copy)]
pub struct Term {
    pub id: i64,
    pub seconds: u64,
    /// The moment of its grant or its last keepalive, in milliseconds.
    pub since: u64,
}

/// Whether the lease's seconds have passed.
pub fn is_over(now: u64, term: Term) -> bool
    ensures { result ≡ is_over now term }
{
    term.since <= now && (now - term.since) / 1000 >= term.seconds
}

/// Begins a term, in place of what its lease had.
pub fn begin(terms: &mut Vec<Term>, term: Term)
    requires { vec_len terms.old < vec_capacity terms.old }
    ensures { terms.new.items ≡ filter (λ t. not (is_of term.id t)) terms.old.items ++ term ∷ [] }
{
    terms.retain(|other| other.id != term.id);
    terms.push_reserved(term);
}

/// Ends the terms that are over.
pub fn end_over(terms: &mut Vec<Term>, now: u64)
    ensures { terms.new.items ≡ filter (λ t. not (is_over now t)) terms.old.items }
{
    terms.retain(|term| !is_over(now, *term));
}
