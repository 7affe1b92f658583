//! The rule by which a relay makes outputs.
ghost use Rattle.std.specs.Prelude.{ℕ, ◌≡◌, ◌≤◌, ◌<◌, ◌+◌, ◌^◌};
ghost use Rattle.bats_relay.specs.Rule.{IsRule, max_rank, fixed_count, extra_count};

use std::marker::Model;

/// How many outputs a relay makes of a batch, from the batch's rank, 0 to 32: a closure that may be called on each of
/// these ranks, answers at most the cap, and answers 0 at rank 0. Each rule that `new` makes is such (`IsRule`).
#[derive(Drop)]
pub struct Rule<F: Fn(u32) -> u32> {
    cap: u32,
    closure: F,
}

impl<F: Fn(u32) -> u32> Model for Rule<F> {
    ghost use Rattle.bats_relay.specs.Rule.{RuleData};

    ghost Value = { RuleData F };

    ghost view = { λ r. record { cap = r.cap; closure = r.closure } };
}

impl<F: Fn(u32) -> u32> Rule<F> {
    /// The rule with this closure. It takes no memory.
    pub fn new(cap: u32, closure: F) -> Rule<F>
        requires callable { (rank : ℕ) → rank ≤ max_rank → F.pre closure rank }
        requires capped { (rank answer : ℕ) → rank ≤ max_rank → F.post closure rank answer → answer ≤ cap }
        requires none { (answer : ℕ) → F.post closure 0 answer → answer ≡ 0 }
        ensures value { result ≡ record { cap = cap; closure = closure } }
        ensures rule { IsRule F.pre F.post result }
    {
        Rule { cap, closure }
    }

    /// The closure's answer for a batch of this rank.
    pub fn count(&self, rank: u32) -> u32
        requires rule { IsRule F.pre F.post self.now }
        requires within { rank ≤ max_rank }
        ensures value { F.post self.now.closure rank result }
        ensures limit { result ≤ self.now.cap }
        ensures none { rank ≡ 0 → result ≡ 0 }
    {
        (self.closure)(rank)
    }

    /// The most that the rule answers.
    pub fn cap(&self) -> u32
        ensures { result ≡ self.now.cap }
    {
        self.cap
    }
}

/// Outputs of a batch of this rank where each batch is to have `count`: none at rank 0.
pub fn fixed_outputs(count: u32, rank: u32) -> u32
    ensures { result ≡ fixed_count count rank }
{
    if rank == 0 { 0 } else { count }
}

/// Outputs of a batch of this rank where each is to have `count` more than its rank, or than `m` if that is less: none
/// at rank 0.
pub fn extra_outputs(m: u8, count: u32, rank: u32) -> u32
    requires { m + count < 2 ^ 32 }
    ensures { result ≡ extra_count m count rank }
{
    if rank == 0 {
        0
    } else {
        rank.min(u32::from(m)) + count
    }
}
