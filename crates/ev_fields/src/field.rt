//! Members of messages, by their names.

ghost use Rattle.std.specs.Prelude.{◌≡◌, ◌++◌, ◌∷◌, []};
ghost use Rattle.ev_fields.specs.Names.{snake, camel};

/// A member of a message of etcd's JSON gateway, by its name in etcd's protobuf messages. `Kind` is the member `type`.
#[derive(Clone, Copy, PartialEq, Eq)]
pub enum Field {
    Header,
    Revision,
    Succeeded,
    Responses,
    ResponsePut,
    ResponseDeleteRange,
    ResponseRange,
    Deleted,
    Kvs,
    Key,
    Value,
    CreateRevision,
    ModRevision,
    Version,
    Lease,
    Count,
    More,
    Id,
    Ttl,
    Result,
    Events,
    Kind,
    CompactRevision,
    Canceled,
    Created,
    Compare,
    Success,
    Failure,
    Target,
    RequestPut,
    RequestDeleteRange,
    RequestRange,
    RangeEnd,
    Limit,
    KeysOnly,
    CreateRequest,
    Fragment,
    ProgressNotify,
    StartRevision,
}

impl Field {
    /// The name in snake case, as it is written.
    #[tactic(auto, unfolding(crate::specs::Names::snake))]
    pub fn snake(self) -> &'static str
        ensures { result.now ≡ snake self }
    {
        match self {
            Field::Header => "header",
            Field::Revision => "revision",
            Field::Succeeded => "succeeded",
            Field::Responses => "responses",
            Field::ResponsePut => "response_put",
            Field::ResponseDeleteRange => "response_delete_range",
            Field::ResponseRange => "response_range",
            Field::Deleted => "deleted",
            Field::Kvs => "kvs",
            Field::Key => "key",
            Field::Value => "value",
            Field::CreateRevision => "create_revision",
            Field::ModRevision => "mod_revision",
            Field::Version => "version",
            Field::Lease => "lease",
            Field::Count => "count",
            Field::More => "more",
            Field::Id => "ID",
            Field::Ttl => "TTL",
            Field::Result => "result",
            Field::Events => "events",
            Field::Kind => "type",
            Field::CompactRevision => "compact_revision",
            Field::Canceled => "canceled",
            Field::Created => "created",
            Field::Compare => "compare",
            Field::Success => "success",
            Field::Failure => "failure",
            Field::Target => "target",
            Field::RequestPut => "request_put",
            Field::RequestDeleteRange => "request_delete_range",
            Field::RequestRange => "request_range",
            Field::RangeEnd => "range_end",
            Field::Limit => "limit",
            Field::KeysOnly => "keys_only",
            Field::CreateRequest => "create_request",
            Field::Fragment => "fragment",
            Field::ProgressNotify => "progress_notify",
            Field::StartRevision => "start_revision",
        }
    }

    /// The name in snake case between quotes, with its colon: no name has a character that JSON escapes.
    #[tactic(auto, unfolding(crate::specs::Names::snake))]
    pub(crate) fn key_text(self) -> &'static str
        ensures { result.now ≡ 34 ∷ (snake self ++ 34 ∷ 58 ∷ []) }
    {
        match self {
            Field::Header => "\"header\":",
            Field::Revision => "\"revision\":",
            Field::Succeeded => "\"succeeded\":",
            Field::Responses => "\"responses\":",
            Field::ResponsePut => "\"response_put\":",
            Field::ResponseDeleteRange => "\"response_delete_range\":",
            Field::ResponseRange => "\"response_range\":",
            Field::Deleted => "\"deleted\":",
            Field::Kvs => "\"kvs\":",
            Field::Key => "\"key\":",
            Field::Value => "\"value\":",
            Field::CreateRevision => "\"create_revision\":",
            Field::ModRevision => "\"mod_revision\":",
            Field::Version => "\"version\":",
            Field::Lease => "\"lease\":",
            Field::Count => "\"count\":",
            Field::More => "\"more\":",
            Field::Id => "\"ID\":",
            Field::Ttl => "\"TTL\":",
            Field::Result => "\"result\":",
            Field::Events => "\"events\":",
            Field::Kind => "\"type\":",
            Field::CompactRevision => "\"compact_revision\":",
            Field::Canceled => "\"canceled\":",
            Field::Created => "\"created\":",
            Field::Compare => "\"compare\":",
            Field::Success => "\"success\":",
            Field::Failure => "\"failure\":",
            Field::Target => "\"target\":",
            Field::RequestPut => "\"request_put\":",
            Field::RequestDeleteRange => "\"request_delete_range\":",
            Field::RequestRange => "\"request_range\":",
            Field::RangeEnd => "\"range_end\":",
            Field::Limit => "\"limit\":",
            Field::KeysOnly => "\"keys_only\":",
            Field::CreateRequest => "\"create_request\":",
            Field::Fragment => "\"fragment\":",
            Field::ProgressNotify => "\"progress_notify\":",
            Field::StartRevision => "\"start_revision\":",
        }
    }

    /// The name in camel case, as it may be read.
    #[tactic(auto, unfolding(crate::specs::Names::camel, crate::specs::Names::snake))]
    pub fn camel(self) -> &'static str
        ensures { result.now ≡ camel self }
    {
        match self {
            Field::Header => "header",
            Field::Revision => "revision",
            Field::Succeeded => "succeeded",
            Field::Responses => "responses",
            Field::ResponsePut => "responsePut",
            Field::ResponseDeleteRange => "responseDeleteRange",
            Field::ResponseRange => "responseRange",
            Field::Deleted => "deleted",
            Field::Kvs => "kvs",
            Field::Key => "key",
            Field::Value => "value",
            Field::CreateRevision => "createRevision",
            Field::ModRevision => "modRevision",
            Field::Version => "version",
            Field::Lease => "lease",
            Field::Count => "count",
            Field::More => "more",
            Field::Id => "ID",
            Field::Ttl => "TTL",
            Field::Result => "result",
            Field::Events => "events",
            Field::Kind => "type",
            Field::CompactRevision => "compactRevision",
            Field::Canceled => "canceled",
            Field::Created => "created",
            Field::Compare => "compare",
            Field::Success => "success",
            Field::Failure => "failure",
            Field::Target => "target",
            Field::RequestPut => "requestPut",
            Field::RequestDeleteRange => "requestDeleteRange",
            Field::RequestRange => "requestRange",
            Field::RangeEnd => "rangeEnd",
            Field::Limit => "limit",
            Field::KeysOnly => "keysOnly",
            Field::CreateRequest => "createRequest",
            Field::Fragment => "fragment",
            Field::ProgressNotify => "progressNotify",
            Field::StartRevision => "startRevision",
        }
    }
}
