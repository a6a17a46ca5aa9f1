//! What holds of every transcript without a fault. Each function does nothing, and its contract is the law: only what a
//! contract names is proved.

ghost use Rattle.zk_legal.specs.Laws.{FramesWithoutFaultAreFresh, LinesInOrderAreOrdered, LinesWithoutFaultAreLegal, LinesWithoutFaultHaveZxids, NumbersWithoutFaultFit, ResponsesWithoutFaultAreShort, SessionsWithoutFaultHavePasswords, TriggersWithoutFaultAreShort, UnopenedConnectionsAreSilent};

/// A transcript without a fault of its history has a legal history.
pub fn lines_without_fault_are_legal()
    ensures { LinesWithoutFaultAreLegal }
{}

/// A transcript without a fault of its order carries out each connection's requests in order.
pub fn lines_in_order_are_ordered()
    ensures { LinesInOrderAreOrdered }
{}

/// Without a fault of the history no zxid is below 0.
pub fn lines_without_fault_have_zxids()
    ensures { LinesWithoutFaultHaveZxids }
{}

/// Without a fault of the history each frame shows the zxid of the last update before it.
pub fn frames_without_fault_are_fresh()
    ensures { FramesWithoutFaultAreFresh }
{}

/// Without a fault of the history nothing is sent to a connection that was never opened.
pub fn unopened_connections_are_silent()
    ensures { UnopenedConnectionsAreSilent }
{}

/// Without a fault of the history each number is within its field: the counts of the tree, the times, and the sizes of requests.
pub fn numbers_without_fault_fit()
    ensures { NumbersWithoutFaultFit }
{}

/// Without a fault of the history each open session has a password of 16 bytes, where each password offered has 16.
pub fn sessions_without_fault_have_passwords()
    ensures { SessionsWithoutFaultHavePasswords }
{}

/// Without a fault of the history what an update shows is short: the paths that watches see, and the reply to its request.
pub fn updates_without_fault_are_short()
    ensures triggers { TriggersWithoutFaultAreShort }
    ensures response { ResponsesWithoutFaultAreShort }
{}
