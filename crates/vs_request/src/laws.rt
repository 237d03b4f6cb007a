//! What requests keep to, as contracts of functions that do nothing.
ghost use Rattle.std.specs.Prelude.{◌≡◌, ℕ, List, Result};
ghost use Rattle.vs_base.specs.declared.cell.Cell.{Cell};
ghost use Rattle.vs_proto.specs.declared.row.Row.{Row};
ghost use Rattle.vs_request.specs.declared.refusal.RequestRefusal.{RequestRefusal};
ghost use Rattle.vs_request.specs.declared.request.Request.{Request};
ghost use Rattle.vs_request.specs.Keys.{cells_of, IsRowOf};
ghost use Rattle.vs_request.specs.Laws.{SaysOneThing};
ghost use Rattle.vs_request.specs.Requests.{Says};

/// Each list of bytes says one thing: a request, or its first fault.
pub fn law_requests()
    ensures one { SaysOneThing }
    ensures some { (bytes : List ℕ) → (r : Result Request RequestRefusal) × Says bytes r }
{}

/// The cells that a row is made of are those that it says.
pub fn law_keys()
    ensures { (row : Row) (cells : List Cell) → IsRowOf row cells → cells_of row.lengths row.values ≡ cells }
{}
