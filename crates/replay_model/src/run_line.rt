//! What is kept of a run.

ghost use Rattle.std.specs.Prelude.{◌≡◌, ◌<◌, ◌^◌, length};
ghost use Rattle.call_rules.specs.Packet.{call_of};
ghost use Rattle.replay_model.specs.Digests.{run_digest};

use lane_checksum::{Digest, digest_of};
use rpc_header::CallId;
use std::marker::Model;

/// A line of the journal: one run of a body, with digests of what it took and gave.
#[derive(Drop)]
pub struct RunLine {
    /// The call that ran.
    pub call: CallId,
    /// The number of its procedure.
    pub procedure: u16,
    /// The digest of the arguments.
    pub arguments: Digest,
    /// Whether the body answered with a signal.
    pub signal: bool,
    /// The digest of the answer.
    pub reply: Digest,
}

impl Model for RunLine {
    ghost use Rattle.replay_model.specs.Digests.{RunDigest};
    ghost use Rattle.call_rules.specs.Packet.{call_of};

    ghost Value = { RunDigest };

    ghost view = { λ r. record { call = call_of r.call; procedure = r.procedure; arguments = r.arguments; signal = r.signal; reply = r.reply } };
}

impl RunLine {
    /// Makes the line of a run from its arguments and its answer, each of fewer than 2^32 bytes.
    pub fn new(
        call: CallId,
        procedure: u16,
        arguments: &[u8],
        signal: bool,
        reply: &[u8],
    ) -> RunLine
        requires arguments { length arguments.now < 2 ^ 32 }
        requires reply { length reply.now < 2 ^ 32 }
        ensures { result ≡ run_digest (record {
          call = call_of call;
          procedure = procedure;
          arguments = arguments.now;
          signal = signal;
          reply = reply.now;
        }) }
    {
        RunLine {
            call,
            procedure,
            arguments: digest_of(arguments),
            signal,
            reply: digest_of(reply),
        }
    }
}
