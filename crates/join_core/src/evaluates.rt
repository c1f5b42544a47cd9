// A join is an evaluation.
ghost use Rattle.request_plan.specs.Worlds.{World, IsPageAt};
ghost use Rattle.join_core.specs.Ones.{SuitsOne};
ghost use Rattle.request_plan.specs.Beginnings.{FitsWorld, world_rows, world_plan, world_reported};
ghost use Rattle.join_core.specs.Sound.{KeepsTo, KeepsSizes};
ghost use Rattle.join_core.specs.JoinAccounts.{account_of, standing_of};
ghost use Rattle.join_core.specs.JoinLaws.{done-owes-nothing, done-is-quiet, tickets-are-below, out-is-small};

use crate::join::Join;
use bgp_core::{Query, Row};
use fragment_page::Page;
use request_plan::{Answered, Ask, BlockSize, Evaluates, FormList};
use std::alloc::Global;
use tpf_base::OutOfMemory;

impl Evaluates for Join {
    ghost Source = { World };

    ghost is_true = { IsPageAt };

    ghost suits = { SuitsOne };

    ghost account = { account_of };

    ghost standing = { standing_of };

    ghost keeps_to = { KeepsTo };

    ghost keeps_small = { KeepsSizes };

    ghost fits = { FitsWorld };

    ghost rows = { world_rows };

    ghost plan = { world_plan };

    ghost reported = { world_reported };

    fn begin(
        alloc: Global,
        query: &Query,
        forms: FormList,
        window: u32,
        block: BlockSize,
    ) -> Result<Join, OutOfMemory> {
        Join::in_blocks(alloc, query, forms, window, block)
    }

    fn report_version(first: Option<u64>) -> Option<u64> {
        first
    }

    fn next_ask(&mut self, alloc: Global) -> Result<Option<Ask>, OutOfMemory> {
        Join::next_ask(self, alloc)
    }

    fn answer(&mut self, alloc: Global, ticket: u64, page: Page) -> Result<Answered, OutOfMemory> {
        Join::answer(self, alloc, ticket, page)
    }

    fn take_row(&mut self) -> Option<Row> {
        Join::take_row(self)
    }

    fn is_done(&self) -> bool {
        Join::is_done(self)
    }

    ghost done_owes_nothing = { done-owes-nothing };

    ghost done_is_quiet = { done-is-quiet };

    ghost tickets_are_below = { tickets-are-below };

    ghost out_is_small = { out-is-small };
}
