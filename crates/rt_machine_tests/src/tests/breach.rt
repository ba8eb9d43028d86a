//! Breaches of random sets beside the rule tick by tick.
use crate::tests::same;
use rt_admit::{AdmitFault, Params, admit};
use rt_laws::breach::{Breach, breach};
use std::alloc::{AllocError, Global};
use std::process::Abort;
use std::test::Fail;

fn task(budget: u32, period: u32) -> Params {
    Params {
        budget,
        period,
        start: 0,
    }
}

fn late(task: u32, c: u32, d: u64) -> Option<Breach> {
    Some(Breach { task, c, d })
}

/// A linear congruential generator.
#[derive(Drop)]
struct Draws {
    state: u64,
}

impl Draws {
    /// A number from 1 to `most`.
    fn up_to(&mut self, most: u32) -> u32 {
        self.state = self
            .state
            .wrapping_mul(6_364_136_223_846_793_005)
            .wrapping_add(1_442_695_040_888_963_407);
        let high = (self.state >> 33) as u32;
        high.checked_rem(most).unwrap_or(0).saturating_add(1)
    }

    /// A task whose period divides the hyperperiod.
    fn task(&mut self, hyper: u32) -> Params {
        let least = self.up_to(hyper);
        let period = (least..hyper)
            .find(|period| hyper.is_multiple_of(*period))
            .unwrap_or(hyper);
        task(self.up_to(period), period)
    }

    /// A set of two to eight tasks.
    fn set(&mut self, alloc: Global, hyper: u32) -> Result<Vec<Params>, AllocError> {
        let mut set = Vec::new(alloc);
        set.push(self.task(hyper))?;
        for _ in 0..self.up_to(7) {
            set.push(self.task(hyper))?;
        }
        Ok(set)
    }
}

/// The server of a task, what is left of its budget and its deadline.
#[derive(Drop)]
struct Plain {
    task: Params,
    left: u32,
    deadline: u32,
}

impl Plain {
    fn spend(&mut self) {
        self.left = self.left.saturating_sub(1);
        if self.left == 0 {
            self.left = self.task.budget;
            self.deadline = self.deadline.saturating_add(self.task.period);
        }
    }
}

fn servers_of(alloc: Global, set: &[Params]) -> Result<Vec<Plain>, AllocError> {
    let mut servers = Vec::new(alloc);
    for task in set {
        servers.push(Plain {
            task: *task,
            left: task.budget,
            deadline: task.period,
        })?;
    }
    Ok(servers)
}

/// The place of the server of the least deadline, then number.
fn first_of(servers: &[Plain]) -> usize {
    let mut next = 0;
    let mut least = u32::MAX;
    for (number, server) in servers.iter().enumerate() {
        if server.deadline < least {
            least = server.deadline;
            next = number;
        }
    }
    next
}

/// The first task that hasn't had its budget at the hyperperiod.
fn first_late(hyper: u32, servers: &[Plain]) -> Option<Breach> {
    for (number, server) in (0..64).zip(servers) {
        if hyper.saturating_add(server.left) > server.deadline {
            return late(number, server.left, u64::from(server.deadline));
        }
    }
    None
}

/// The breach by its rule: each tick is spent by the server of the least deadline, then number.
fn plain_breach(alloc: Global, hyper: u32, set: &[Params]) -> Result<Option<Breach>, AllocError> {
    let mut servers = servers_of(alloc, set)?;
    for _ in 0..hyper {
        let next = first_of(&servers);
        if let Some(server) = servers.get_mut(next) {
            server.spend();
        }
    }
    Ok(first_late(hyper, &servers))
}

/// Looks at the breach of a set, and answers whether it asks for too much.
fn stands_beside_the_rule(
    rt: &impl Abort,
    alloc: Global,
    hyper: u32,
    set: &[Params],
) -> Result<bool, AllocError> {
    let answer = breach(hyper, set);
    if let Err(AdmitFault::Overload { .. }) = admit(hyper, set) {
        same(rt, set, answer, plain_breach(alloc, hyper, set)?);
        same(rt, set, answer.is_some(), true);
        return Ok(true);
    }
    same(rt, set, answer, None);
    Ok(false)
}

static HYPERS: [u32; 11] = [1, 2, 12, 36, 60, 96, 120, 144, 180, 240, 360];

#[test]
fn random_sets_beside_the_rule(rt: HostRuntime) -> Result<(), Fail> {
    let mut draws = Draws { state: 2026 };
    let mut overloaded: usize = 0;
    for round in 0..1_500 {
        let hyper = HYPERS[round % 11];
        let set = draws.set(rt.alloc(), hyper)?;
        if stands_beside_the_rule(&rt, rt.alloc(), hyper, &set)? {
            overloaded += 1;
        }
    }
    same(&rt, overloaded, overloaded >= 1_000, true);
    Ok(())
}
