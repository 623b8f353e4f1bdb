ghost use Rattle.std.specs.Prelude.{nat_eq};

use super::Ring;
use super::remove::Pick;
use super::run::{Answer, Step};

// A reply that waits on a link.
#[derive(Clone, Copy)]
struct Reply {
    kind: u8,
    packet_id: u16,
}

// A publication that is not finished: where its text lies, and how far it has come.
#[derive(Clone, Copy)]
struct Publication {
    packet_id: u16,
    topic_at: u32,
    released: bool,
}

struct WithId(u16);

impl Pick<Publication> for WithId {
    ghost picked = { λ s p. nat_eq p.packet_id s.0 };

    fn picks(&self, entry: &Publication) -> bool {
        entry.packet_id == self.0
    }
}

fn puback(packet_id: u16) -> Reply {
    Reply { kind: 4, packet_id }
}

fn begun(packet_id: u16) -> Publication {
    Publication {
        packet_id,
        topic_at: 0,
        released: false,
    }
}

// The packet identifier of a reply, or 0.
fn id_of(reply: Option<Reply>) -> u16 {
    match reply {
        Some(Reply { kind: 4, packet_id }) => packet_id,
        _ => 0,
    }
}

fn refused(answer: Result<(), Reply>) -> u16 {
    id_of(answer.err())
}

fn popped(ring: &mut Ring, memory: &[Publication]) -> u16 {
    match ring.pop(memory) {
        Some(publication) => publication.packet_id,
        None => 0,
    }
}

#[test]
fn replies_go_round(rt: HostRuntime) {
    let mut memory = [puback(0); 2];
    let mut ring = Ring::new();
    let a = refused(ring.push(&mut memory, puback(1)));
    let b = refused(ring.push(&mut memory, puback(2)));
    let c = refused(ring.push(&mut memory, puback(3)));
    let d = id_of(ring.pop(&memory));
    let e = refused(ring.push(&mut memory, puback(4)));
    let f = memory[0].packet_id;
    let g = refused(ring.set(&mut memory, 1, puback(5)));
    let h = id_of(ring.get(&memory, 1));
    assert_eq!(rt; [a, b, c, d, e, f, g, h], [0, 0, 3, 1, 0, 4, 0, 5]);
}

#[test]
fn publications_leave_from_the_middle(rt: HostRuntime) {
    let mut memory = [begun(0); 3];
    let mut ring = Ring::new();
    let _ = ring.push(&mut memory, begun(1));
    let _ = ring.push(&mut memory, begun(2));
    let _ = ring.push(&mut memory, begun(3));
    let went = ring.remove(&mut memory, &WithId(2));
    let a = popped(&mut ring, &memory);
    let b = popped(&mut ring, &memory);
    assert_eq!(rt; [a, b], [1, 3]);
    assert_eq!(rt; [went, ring.len(&memory)], [1, 0]);
}

#[test]
fn no_memory_holds_nothing(rt: HostRuntime) {
    let mut memory: [Reply; 0] = [];
    let mut ring = Ring::new();
    let a = refused(ring.push(&mut memory, puback(1)));
    let b = id_of(ring.pop(&memory));
    let c = id_of(ring.oldest(&memory));
    let d = refused(ring.set(&mut memory, 0, puback(2)));
    assert_eq!(rt; [a, b, c, d], [1, 0, 0, 2]);
}

// A ring for each link, over one memory for all of them.
#[test]
fn links_have_rings_of_their_own(rt: HostRuntime) {
    let mut memory = [puback(0); 4];
    let mut rings = [Ring::new(); 2];
    let mut ring = rings[1];
    let _ = ring.push(&mut memory[2..4], puback(1));
    let _ = ring.push(&mut memory[2..4], puback(2));
    rings[1] = ring;
    let all = rings[1].len(&memory[2..4]);
    let fewer = rings[1].len(&memory[2..3]);
    rings[1].clear();
    let none = rings[1].len(&memory[2..4]);
    assert_eq!(rt; [all, fewer, none], [2, 1, 0]);
    assert_eq!(rt; memory[2].packet_id, 1);
}

#[test]
fn a_run_is_answered_in_order(rt: HostRuntime) {
    let mut memory = [0u8; 1];
    let mut answers = [Answer::OfPop(None); 3];
    let steps = [Step::Push(7), Step::Push(8), Step::Pop];
    let count = Ring::new().run(&mut memory, &steps, &mut answers);
    assert_eq!(rt; count, 3);
    assert!(rt;
        matches!(
            answers,
            [
                Answer::OfPush(Ok(())),
                Answer::OfPush(Err(8)),
                Answer::OfPop(Some(7))
            ]
        )
    );
}
