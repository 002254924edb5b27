// The numbers that the columns of a row have (document 01, Sheets, the table).
// Kept: numbers with names, and no enums. A row is eight u32 numbers in words that a caller lends, and until a sheet is checked
// a column may have any number.

// Column 1.
pub mod kind {
    pub const DOCUMENT: u32 = 1;

    pub const NODE: u32 = 2;

    pub const FIELD: u32 = 3;

    pub const INTERFACE: u32 = 4;

    pub const STATEMENT: u32 = 5;

    pub const ORDER: u32 = 6;

    pub const PROTO: u32 = 7;

    pub const EXTERN_PROTO: u32 = 8;

    pub const ID: u32 = 9;

    pub const URL: u32 = 10;

    pub const TOP: u32 = 11;

    pub const FILE: u32 = 12;

    pub const INSTANCE: u32 = 13;

    pub const ASSOCIATION: u32 = 14;
}

// Column c of a node.
pub mod origin {
    pub const BUILTIN: u32 = 0;

    pub const PROTO: u32 = 1;

    pub const EXTERN_PROTO: u32 = 2;

    pub const UNKNOWN: u32 = 3;
}

// Column b of a field.
pub mod field {
    pub const VALUE: u32 = 0;

    pub const IS: u32 = 1;
}

// Column f of a field or an interface.
pub mod class {
    pub const NONE: u32 = 0;

    pub const PAYLOAD: u32 = 1;

    pub const NODES: u32 = 2;
}

// Column a of a statement.
pub mod statement {
    pub const NODE: u32 = 0;

    pub const PROTO: u32 = 1;

    pub const EXTERN_PROTO: u32 = 2;

    pub const ROUTE: u32 = 3;

    pub const OTHER: u32 = 4;
}

// Column a of a body order's row.
pub mod mark {
    pub const FIELD: u32 = 0;

    pub const INTERFACE: u32 = 1;

    pub const STATEMENT: u32 = 2;
}
