// The words of a record, by what it is; specs/Made says what they are. Word 0 is the tag.
pub const TAG: usize = 0;

// The last record of the list that it went behind, with one added: of ids, fields, interfaces, statements, orders, stored
// values and instances.
pub const BEFORE: usize = 8;

// The key of a keyed record is its tag and these.
pub mod key {
    pub const FIRST: usize = 1;

    pub const SECOND: usize = 2;
}

// The links of a keyed record in the index, one for each side.
pub mod link {
    pub const ZERO: usize = 9;

    pub const ONE: usize = 10;
}

pub mod map {
    pub const COPY: usize = 3;

    pub const PAST: usize = 4;
}

pub mod extern_proto {
    pub const DOCUMENT: usize = 1;

    pub const OUT: usize = 3;

    pub const ROW: usize = 4;

    pub const MARK: usize = 6;
}

pub mod node {
    pub const SCOPE: usize = 1;

    pub const SOURCE: usize = 2;

    pub const TYPE: usize = 3;

    pub const DEF: usize = 4;

    pub const ORIGIN: usize = 5;

    pub const ID: usize = 6;

    pub const FIELDS: usize = 7;

    pub const INTERFACES: usize = 8;

    pub const STATEMENTS: usize = 9;

    pub const ORDER: usize = 10;

    pub const INSTANCE: usize = 11;
}

pub mod id {
    pub const ID: usize = 1;
}

// The value of a field, an interface or a stored value.
pub mod value {
    pub const TYPE: usize = 5;

    pub const CLASS: usize = 6;

    pub const PAYLOAD: usize = 7;
}

pub mod field {
    pub const NAME: usize = 1;

    pub const IS: usize = 2;

    pub const TARGET: usize = 3;

    pub const INFERRED: usize = 4;
}

pub mod interface {
    pub const ACCESS: usize = 1;

    pub const DECLARED: usize = 2;

    pub const NAME: usize = 3;

    pub const TARGET: usize = 4;
}

pub mod statement {
    pub const KIND: usize = 1;

    pub const ID: usize = 2;
}

pub mod order {
    pub const MARK: usize = 1;
}

pub mod stored {
    pub const FAMILY: usize = 1;

    pub const NAME: usize = 2;

    // Of a family's first record: the newest, with one added.
    pub const NEWEST: usize = 11;
}

pub mod scope {
    pub const KIND: usize = 1;

    pub const DOCUMENT: usize = 2;

    pub const PROTO: usize = 3;

    pub const INDEX: usize = 4;

    pub const OPENER: usize = 5;

    // The last of its extra roots, routes and associations, with one added.
    pub const ROOTS: usize = 9;

    pub const ROUTES: usize = 10;

    pub const ASSOCIATIONS: usize = 11;
}

pub mod root {
    pub const NODE: usize = 2;
}

// A route, as a statement of a node and as a record of a scope.
pub mod route {
    pub const FROM_NODE: usize = 2;

    pub const FROM_FIELD: usize = 3;

    pub const TO_NODE: usize = 4;

    pub const TO_FIELD: usize = 5;

    pub const FROM: usize = 6;

    pub const TO: usize = 7;

    // Of a scope's route: its ends as they are in the scope's map.
    pub const REMAPPED_FROM: usize = 10;

    pub const REMAPPED_TO: usize = 11;
}

pub mod association {
    pub const INTERFACE: usize = 2;

    pub const NODE: usize = 3;

    pub const FIELD: usize = 4;
}

pub mod instance {
    pub const NAME: usize = 2;

    pub const ROOTS: usize = 3;

    pub const ROUTES: usize = 4;

    pub const ASSOCIATIONS: usize = 5;
}
