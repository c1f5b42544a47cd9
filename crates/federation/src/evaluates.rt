// A federation is an evaluation.
ghost use Rattle.std.specs.Prelude.{List};
ghost use Rattle.request_plan.specs.Worlds.{World};
ghost use Rattle.joint_pages.specs.Truths.{IsPageOfAll};
ghost use Rattle.federation.specs.Beginnings.{FitByRows, joint_rows, joint_plan, none_reported};
ghost use Rattle.federation.specs.Federations.{SuitsAll, KeepsAll, KeepsSmall, account_of, standing_of};
ghost use Rattle.federation.specs.FederationLaws.{done-owes-nothing, done-is-quiet, tickets-are-below, out-is-small};

use crate::evaluation::Federation;
use bgp_core::{Query, Row};
use fragment_page::Page;
use request_plan::{Answered, Ask, BlockSize, Evaluates, FormList};
use std::alloc::Global;
use tpf_base::OutOfMemory;

impl Evaluates for Federation {
    ghost Source = { List World };

    ghost is_true = { IsPageOfAll };

    ghost suits = { SuitsAll };

    ghost account = { account_of };

    ghost standing = { standing_of };

    ghost keeps_to = { KeepsAll };

    ghost keeps_small = { KeepsSmall };

    ghost fits = { FitByRows };

    ghost rows = { joint_rows };

    ghost plan = { joint_plan };

    ghost reported = { none_reported };

    fn begin(
        alloc: Global,
        query: &Query,
        forms: FormList,
        window: u32,
        block: BlockSize,
    ) -> Result<Federation, OutOfMemory> {
        let _block = block;
        Federation::new(alloc, query, forms, window)
    }

    fn report_version(first: Option<u64>) -> Option<u64> {
        let _first = first;
        None
    }

    fn next_ask(&mut self, alloc: Global) -> Result<Option<Ask>, OutOfMemory> {
        self.ask(alloc)
    }

    fn answer(&mut self, alloc: Global, ticket: u64, page: Page) -> Result<Answered, OutOfMemory> {
        self.take_page(alloc, ticket, page)
    }

    fn take_row(&mut self) -> Option<Row> {
        self.give_row()
    }

    fn is_done(&self) -> bool {
        self.is_over()
    }

    ghost done_owes_nothing = { done-owes-nothing };

    ghost done_is_quiet = { done-is-quiet };

    ghost tickets_are_below = { tickets-are-below };

    ghost out_is_small = { out-is-small };
}
