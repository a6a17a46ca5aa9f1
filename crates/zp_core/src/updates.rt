//! Which update the ask that is out is.

ghost use Rattle.std.specs.Prelude.{◌≡◌};
ghost use Rattle.zp_step.specs.Kinds.{kind_in_stage, kind_of_connect, kind_of_request};
ghost use Rattle.zp_core.specs.Meanings.{core_of, stage_of};

use crate::client::Client;
use crate::stage::Stage;
use zk_model::Request;
use zk_service::UpdateKind;
use zs_session::{Connect, Phase};

fn of_connect(connection: u32, connect: &Connect) -> Option<UpdateKind>
    ensures { result ≡ kind_of_connect connection connect.now connect.now.phase }
{
    match connect.phase {
        Phase::Creating => Some(UpdateKind::Session {
            id: connect.fresh.id,
            connection,
        }),
        Phase::Attaching { .. } => Some(UpdateKind::Attach {
            id: connect.request.session,
            connection,
        }),
        Phase::Unasked
        | Phase::Looking
        | Phase::Granting
        | Phase::Keeping { .. }
        | Phase::LookingAgain
        | Phase::Over => None,
    }
}

fn of_request(connection: u32, index: u64, id: i64, time: u64, request: &Request) -> UpdateKind
    ensures { result ≡ kind_of_request connection index id time request.now }
{
    match request {
        Request::Close => UpdateKind::Closed {
            id,
            connection,
            index,
        },
        _ => UpdateKind::Asked {
            connection,
            index,
            now: time,
        },
    }
}

/// The update that the transaction which is out makes if it changes the head, as a transcript shows it in which this
/// connection has the number `connection`. None where no transaction of an update is out.
pub(crate) fn asked_in(connection: u32, client: &Client, stage: &Stage) -> Option<UpdateKind>
    ensures { result ≡ kind_in_stage connection (core_of client.now (stage_of stage.now)) (stage_of stage.now) }
{
    match stage {
        Stage::Connecting(connecting) => of_connect(connection, connecting.connect()),
        Stage::Committing(commit) => Some(of_request(
            connection,
            client.next,
            client.who.session,
            commit.time,
            &commit.task.request,
        )),
        Stage::Unconnected { .. }
        | Stage::Ready
        | Stage::KeepingAlive { .. }
        | Stage::Checking { .. }
        | Stage::Reading(_)
        | Stage::Waiting(_)
        | Stage::Shut => None,
    }
}
