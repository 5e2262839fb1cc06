// What a search is asked of: an accepted table and a valid query, with their index and an index of arcs.
ghost use Rattle.search.specs.Search.{Prepared};
ghost use Rattle.search.specs.Once.{prepared_once};

use sets::StateSet;
use table::{Number, Query};

#[derive(Clone, Copy)]
pub struct Request<'a> {
    pub table: &'a [Number],
    pub query: Query,
    pub index: &'a [u8],
    pub arcs: &'a [StateSet],
    pub ghost prepared: { Prepared table.now query index.now arcs.now } by { prepared_once table.now query index.now arcs.now },
}
