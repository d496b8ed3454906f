//! A session puts the replies to a line before it takes more bytes for the next.
ghost use Rattle.std.specs.Prelude.{◌<◌, ◌^◌, None};

use super::session_within;
use io_edge::{PutFault, Sink, Source, Take};
use session_run::EndStatus;
use std::alloc::Global;
use std::sync::Arc;
use std::sync::atomic::{AtomicU64, Ordering};
use std::test::Fail;

// Gives one line at each take. From the second on, it fails if the other end has not got a reply to each line before.
#[derive(Drop)]
struct Asker {
    taken: u64,
    puts: Arc<AtomicU64, Global>,
    faults: u64,
    ghost held: { faults < 2 ^ 64 },
}

impl Source for Asker {
    ghost left = { λ _. None };

    ghost faults = { λ s. s.faults };

    fn take(&mut self, room: &mut [u8]) -> Take {
        let line = b"stats\n";
        if self.puts.load(Ordering::SeqCst) != self.taken {
            self.faults = self.faults.saturating_add(1);
            return Take::Failed;
        }
        if self.taken >= 3 || room.len() < line.len() {
            return Take::End;
        }
        self.taken += 1;
        room[..line.len()].copy_from_slice(line);
        Take::Bytes(line.len())
    }
}

// Counts its puts.
#[derive(Drop)]
struct Teller {
    puts: Arc<AtomicU64, Global>,
}

impl Sink for Teller {
    ghost written = { λ _. None };

    ghost faults = { λ _. 0 };

    fn put(&mut self, _bytes: &[u8]) -> Result<(), PutFault> {
        self.puts.fetch_add(1, Ordering::SeqCst);
        Ok(())
    }
}

#[test]
fn replies_are_put_before_more_is_taken(rt: HostRuntime) -> Result<(), Fail> {
    let alloc = rt.alloc();
    let puts = Arc::new(alloc, AtomicU64::new(0))?;
    let mut source = Asker {
        taken: 0,
        puts: Arc::try_clone(&puts)?,
        faults: 0,
    };
    let mut sink = Teller {
        puts: Arc::try_clone(&puts)?,
    };
    let end = session_within(&rt, alloc, &mut source, &mut sink, 65_536);
    assert!(rt; end == EndStatus::Done && puts.load(Ordering::SeqCst) == 3);
    Ok(())
}
