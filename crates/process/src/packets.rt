// The calls, open to the host.
ghost use Rattle.std.specs.Prelude.{◌≡◌, length};
ghost use Rattle.state.specs.Turns.{Did};
ghost use Rattle.packet_entry.specs.declared.Entry.TheVariants.{Process, ProcessMessage};
ghost use Rattle.process.specs.Process.{receive_turn, read_turn, PacketReady};

use packet_entry::Entry;
use state::answers;
use state::answers::{Asks, Done};
use state::fields::Coordinator;

// 8 or 9, or what the packet's message does.
fn read(
    s: Coordinator,
    store: &mut [u8],
    out: &mut [u8],
    clock: u64,
    verdict: bool,
    bytes: &[u8],
    entry: Entry,
) -> Done
    requires { PacketReady s store.old (length out.old) }
    ensures { Did (read_turn entry clock verdict bytes.now s store.old)
        out.old result store.new out.new }
{
    match packet_in_hand::open(bytes) {
        Ok(packet) => {
            let h = packet.header();
            packet_entry::enter(s, store, out, clock, verdict, bytes, h, entry)
        }
        Err(n) => answers::refused(s, n as u32),
    }
}

// 4, 5 and 7, then the packet.
fn receive(
    s: Coordinator,
    store: &mut [u8],
    out: &mut [u8],
    clock: u64,
    verdict: bool,
    bytes: &[u8],
    entry: Entry,
) -> Done
    ensures { Did (receive_turn entry clock verdict bytes.now (length out.old) s store.old)
        out.old result store.new out.new }
{
    let size = store.len();
    let room = out.len();
    let asks = Asks {
        no_job: true,
        a_job: false,
        room: true,
    };
    let passed = answers::before(s, size, room, asks);
    match passed {
        Err(n) => answers::refused(s, n),
        Ok(()) => read(s, store, out, clock, verdict, bytes, entry),
    }
}

// bytes: a packet. verdict: the host's on its seal.
pub fn process(
    s: Coordinator,
    store: &mut [u8],
    out: &mut [u8],
    clock: u64,
    verdict: bool,
    bytes: &[u8],
) -> Done
    ensures { Did (receive_turn Process clock verdict bytes.now (length out.old) s store.old)
        out.old result store.new out.new }
{
    receive(s, store, out, clock, verdict, bytes, Entry::Process)
}

pub fn process_message(
    s: Coordinator,
    store: &mut [u8],
    out: &mut [u8],
    clock: u64,
    verdict: bool,
    bytes: &[u8],
) -> Done
    ensures { Did (receive_turn ProcessMessage clock verdict bytes.now (length out.old) s store.old)
        out.old result store.new out.new }
{
    receive(s, store, out, clock, verdict, bytes, Entry::ProcessMessage)
}
