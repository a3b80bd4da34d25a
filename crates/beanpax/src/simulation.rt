ghost use Rattle.std.specs.Prelude.{◌≡◌, IfOk};
ghost use Rattle.simulated_hall.specs.OneClient.{opened};
ghost use Rattle.simulated_hall.specs.Standing.{StandsFor};
ghost use Rattle.bean_queue.specs.Effects.{queue_rules};
ghost use Rattle.beanpax.specs.Sessions.{queue};

use ballot::Members;
use bean_queue::Queue;
use bean_words::{Op, Reply};
use session::{Service, ServiceFault};
use simulated_hall::{SimulatedHall, Unanswered};
use std::alloc::{AllocError, Global};

/// A simulated hall as what obeys the operations of one client.
#[derive(Drop)]
pub struct Simulation {
    hall: SimulatedHall<Queue>,
}

impl Simulation {
    /// A new hall of these members; the seed draws what happens between its nodes.
    pub fn new(alloc: Global, members: Members, seed: u64) -> Result<Simulation, AllocError>
        ensures stands { IfOk result (λ s.
            StandsFor (queue_rules ⟦<Op as PartialEq>⟧.eq) s.hall (opened queue)) }
        ensures members { IfOk result (λ s. s.hall.hall.nodes.network.members ≡ members) }
    {
        Ok(Simulation {
            hall: SimulatedHall::new(alloc, members, seed)?,
        })
    }
}

impl Service for Simulation {
    ghost use Rattle.simulated_hall.specs.Standing.{StandsFor};
    ghost use Rattle.bean_queue.specs.Effects.{queue_rules};
    ghost use Rattle.simulated_hall.specs.Stopping.{IsNotLetGo};
    ghost use Rattle.beanpax.specs.Simulations.{IsStoppedBy, Obeys, Leaves};

    ghost asks = { λ old op result new. Obeys
        (StandsFor (queue_rules ⟦<Op as PartialEq>⟧.eq) old.hall)
        (StandsFor (queue_rules ⟦<Op as PartialEq>⟧.eq) new.hall)
        (IsStoppedBy ⟦<Op as PartialEq>⟧.eq old.hall new.hall op)
        op result };

    ghost closes = { λ old result new. Leaves
        (StandsFor (queue_rules ⟦<Op as PartialEq>⟧.eq) old.hall)
        (StandsFor (queue_rules ⟦<Op as PartialEq>⟧.eq) new.hall)
        (IsNotLetGo ⟦<Op as PartialEq>⟧.eq old.hall new.hall)
        result };

    fn ask(&mut self, op: Op) -> Result<Reply, ServiceFault> {
        match self.hall.ask(op) {
            Ok(reply) => Ok(reply),
            Err(Unanswered::Refused) => Err(ServiceFault::Refused),
            Err(Unanswered::Stopped) => Err(ServiceFault::Stopped),
        }
    }

    fn close(&mut self) -> Result<(), ServiceFault> {
        self.hall.close().map_err(|_| ServiceFault::Stopped)
    }
}
