// What may follow what (document 01, Sheets, the paragraphs after the table).
ghost use Rattle.std.specs.Prelude.{◌≡◌};
ghost use Rattle.sheet_check.specs.Grammar.{form_of, is_library, takes_marks, begins_in, ends_in, starts_in, stays_expanded, allowed, role_of, opened_part, stands_in, comes_in, after_inner, by_role, moves, fits, has_ended, start};

use sheet_rows::codes::{class, kind, origin, statement};
use sheet_rows::row::{NONE, Row};

// The parts that no kind of row opens: before a document, after its row and before the first of protos, before the first of
// files or documents.
const BEFORE: u32 = 0;

const BEGUN: u32 = 1;

const OUTSIDE: u32 = 12;

// What a sheet is to be: a root sheet; a library; an expanded document, which is a root sheet without prototypes; expanded
// documents one after another; protos without body statements.
#[derive(Clone, Copy, Debug, PartialEq, Eq)]
pub enum Form {
    Root,
    Library,
    Expanded,
    Documents,
    Protos,
}

// A number that is no form's.
#[derive(Clone, Copy, Debug, PartialEq, Eq)]
pub struct UnknownForm(pub u32);

impl TryFrom<u32> for Form {
    type Error = UnknownForm;

    ghost try_from_gives = { λ n r. r ≡ form_of n };

    #[tactic(auto, unfolding(crate::specs::Grammar::form_of))]
    fn try_from(number: u32) -> Result<Form, UnknownForm> {
        match number {
            0 => Ok(Form::Root),
            1 => Ok(Form::Library),
            2 => Ok(Form::Expanded),
            3 => Ok(Form::Documents),
            4 => Ok(Form::Protos),
            _ => Err(UnknownForm(number)),
        }
    }
}

impl Form {
    fn is_library(self) -> bool
        ensures { result ≡ is_library self }
    {
        matches!(self, Form::Library)
    }

    // Whether a document may begin in a part.
    fn begins_in(self, part: u32) -> bool
        ensures { result ≡ begins_in self part }
    {
        match self {
            Form::Documents => kind::TOP <= part,
            _ => part == BEFORE,
        }
    }

    // Whether the sheet may end in a part.
    fn ends_in(self, part: u32) -> bool
        ensures { result ≡ ends_in self part }
    {
        match self {
            Form::Protos => true,
            _ => kind::TOP <= part,
        }
    }

    // The part that the sheet starts in.
    fn starts_in(self) -> u32
        ensures { result ≡ starts_in self }
    {
        match self {
            Form::Root | Form::Expanded => BEFORE,
            Form::Library | Form::Documents => OUTSIDE,
            Form::Protos => BEGUN,
        }
    }

    // Whether its urls may have marks.
    fn takes_marks(self) -> bool
        ensures { result ≡ takes_marks self }
    {
        matches!(self, Form::Expanded | Form::Documents)
    }

    fn allows(self, s: State, r: Row) -> bool
        ensures { result ≡ allowed self s r }
    {
        match self {
            Form::Root | Form::Library => true,
            Form::Expanded | Form::Documents => stays_expanded(s, r),
            Form::Protos => (r.kind == kind::PROTO)
                | (r.kind == kind::INTERFACE)
                | (r.kind == kind::ID),
        }
    }
}

// What a row does, by its kind: it starts a document; it opens a node, a proto, an extern or the top; it stands inside one
// of these; it starts a file; it comes only where a row before it counted it; it fits nowhere.
#[derive(Clone, Copy, Debug, PartialEq, Eq)]
pub enum Role {
    Starts,
    Opens,
    Inner,
    Files,
    Owed,
    Never,
}

#[tactic(auto, unfolding(crate::specs::Grammar::role_of))]
fn role_of(k: u32) -> Role
    ensures { result ≡ role_of k }
{
    match k {
        kind::DOCUMENT => Role::Starts,
        kind::NODE | kind::PROTO | kind::EXTERN_PROTO | kind::TOP => Role::Opens,
        kind::FIELD..=kind::ORDER | kind::URL | kind::INSTANCE => Role::Inner,
        kind::ID | kind::ASSOCIATION => Role::Owed,
        kind::FILE => Role::Files,
        _ => Role::Never,
    }
}

// Where the check stands. part: the kind of the row that opened a node, a proto, an extern or the top, or one of the three
// numbers above. last: the kind of the part's last row but those owed, or 0. ids, routes, associations: how many such rows
// are owed, in this order.
// Kept: a part is a number and no enum's; it is the kind that opens it, and is compared with the kind that opens the next.
#[derive(Clone, Copy, Debug, PartialEq, Eq)]
pub struct State {
    pub part: u32,
    pub last: u32,
    pub ids: u32,
    pub routes: u32,
    pub associations: u32,
}

impl State {
    // At the start of a part.
    fn opened(part: u32) -> State
        ensures { result ≡ opened_part part }
    {
        State {
            part,
            last: 0,
            ids: 0,
            routes: 0,
            associations: 0,
        }
    }
}

fn stands_in(part: u32, r: Row) -> bool
    ensures { result ≡ stands_in part r }
{
    (part == kind::NODE) & ((r.kind < kind::PROTO) | (r.kind == kind::INSTANCE))
        | (part == kind::PROTO) & ((r.kind == kind::INTERFACE) | (r.kind == kind::STATEMENT))
        | (part == kind::EXTERN_PROTO)
            & ((r.kind == kind::INTERFACE) & (r.f == class::NONE) | (r.kind == kind::URL))
        | (part == kind::TOP) & (r.kind == kind::STATEMENT)
}

fn comes_in(s: State, r: Row) -> bool
    ensures { result ≡ comes_in s r }
{
    stands_in(s.part, r) & (s.last <= r.kind) & (s.last < kind::INSTANCE)
}

// The state after a row inside a part: an instance owes what its row counts, a value of class 2 its ids.
fn after_inner(s: State, r: Row) -> State
    ensures { result ≡ after_inner s r }
{
    let after = State {
        last: r.kind,
        ..State::opened(s.part)
    };
    if r.kind == kind::INSTANCE {
        State {
            ids: r.b,
            routes: r.c,
            associations: r.d,
            ..after
        }
    } else if (r.kind < kind::STATEMENT) & (r.f == class::NODES) {
        State { ids: r.g, ..after }
    } else {
        after
    }
}

// A row when nothing is owed.
// Kept: form, state and row as parameters here and below. The form stays, the state changes with each row, and no two of them
// are one thing.
fn by_role(form: Form, s: State, r: Row) -> Option<State>
    ensures { result ≡ by_role form s r (role_of r.kind) }
{
    match role_of(r.kind) {
        Role::Starts => form.begins_in(s.part).then_some(State::opened(BEGUN)),
        Role::Opens => {
            let opens = (BEGUN <= s.part) & (s.part <= r.kind) & (s.part < kind::TOP);
            opens.then_some(State::opened(r.kind))
        }
        Role::Inner => comes_in(s, r).then_some(after_inner(s, r)),
        Role::Files => {
            let ends = form.is_library() & (kind::TOP <= s.part);
            ends.then_some(State::opened(BEFORE))
        }
        Role::Owed | Role::Never => None,
    }
}

// A row of the right shape: first what is owed.
#[tactic(auto, unfolding(crate::specs::Grammar::moves))]
fn moves(form: Form, s: State, r: Row) -> Option<State>
    ensures { result ≡ moves form s r }
{
    if 0 < s.ids {
        (r.kind == kind::ID).then_some(State {
            ids: s.ids - 1,
            ..s
        })
    } else if 0 < s.routes {
        ((r.kind == kind::STATEMENT) & (r.a == statement::ROUTE)).then_some(State {
            routes: s.routes - 1,
            ..s
        })
    } else if 0 < s.associations {
        (r.kind == kind::ASSOCIATION).then_some(State {
            associations: s.associations - 1,
            ..s
        })
    } else {
        by_role(form, s, r)
    }
}

// A row that leaves the document expanded: no proto, no Proto statement, no node of origin Proto; in a node no statement but
// Route and ExternProto, and no interface that has both an IS and a value.
fn stays_expanded(s: State, r: Row) -> bool
    ensures { result ≡ stays_expanded s r }
{
    let is_statement = r.kind == kind::STATEMENT;
    let prototype = (r.kind == kind::PROTO)
        | (r.kind == kind::NODE) & (r.c == origin::PROTO)
        | is_statement & (r.a == statement::PROTO);
    let in_node = is_statement
        & (s.part == kind::NODE)
        & ((r.a == statement::NODE) | (r.a == statement::OTHER));
    let is_and_value = (r.kind == kind::INTERFACE) & (r.d != NONE) & (class::NONE < r.f);
    !(prototype | in_node | is_and_value)
}

// The state after a row, where the row fits.
#[tactic(auto, unfolding(crate::specs::Grammar::fits))]
pub fn step(form: Form, s: State, r: Row) -> Option<State>
    ensures { result ≡ fits form s r }
{
    if form.allows(s, r) && sheet_shape::shape_fits(form.takes_marks(), r) {
        moves(form, s, r)
    } else {
        None
    }
}

pub fn has_ended(form: Form, s: State) -> bool
    ensures { result ≡ has_ended form s }
{
    form.ends_in(s.part) & (s.ids == 0) & (s.routes == 0) & (s.associations == 0)
}

pub fn start(form: Form) -> State
    ensures { result ≡ start form }
{
    State::opened(form.starts_in())
}
