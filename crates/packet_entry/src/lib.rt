// A packet that is taken, by the call that brings it: `process` tests the timeout first, `process_message` does not.
#![tactic(auto)]

ghost use Rattle.std.specs.Prelude.{length};
ghost use Rattle.state.specs.Turns.{Did};
ghost use Rattle.messages.specs.Messages.{Incoming};
ghost use Rattle.packet_entry.specs.Entries.{processed_turn, entry_turn};

use layout::Header;
use messages::states;
use process_timeout::dues;
use process_timeout::dues::Due;
use share_timeout::retry;
use state::answers::Done;
use state::fields::Coordinator;

// Which call brings the packet: `process` tests the timeout first.
#[derive(Clone, Copy)]
pub enum Entry {
    Process,
    ProcessMessage,
}

// A timeout that fires drops the packet.
fn unless_late(
    s: Coordinator,
    store: &mut [u8],
    out: &mut [u8],
    clock: u64,
    verdict: bool,
    packet: &[u8],
    h: Header,
) -> Done
    requires { Incoming s store.old packet.now h (length out.old) }
    ensures { Did (processed_turn clock verdict packet.now s store.old)
        out.old result store.new out.new }
{
    match dues::timeout_due(s, clock) {
        Due::Nothing => states::on_message(s, store, out, clock, verdict, packet, h),
        Due::Nonces => timeouts::nonce_timeout(s, store, out),
        Due::Shares(t) => retry::share_timeout(s, store, out, clock, t),
    }
}

pub fn enter(
    s: Coordinator,
    store: &mut [u8],
    out: &mut [u8],
    clock: u64,
    verdict: bool,
    packet: &[u8],
    h: Header,
    entry: Entry,
) -> Done
    requires { Incoming s store.old packet.now h (length out.old) }
    ensures { Did (entry_turn entry clock verdict packet.now s store.old)
        out.old result store.new out.new }
{
    match entry {
        Entry::Process => unless_late(s, store, out, clock, verdict, packet, h),
        Entry::ProcessMessage => states::on_message(s, store, out, clock, verdict, packet, h),
    }
}
