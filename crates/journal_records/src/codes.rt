// The kinds of a scope.
// Kept: numbers with names and no enum. C reads them in the table of the scopes, and a word of a record may be any number.
pub mod scope {
    pub const ROOT: u32 = 0;

    pub const BODY: u32 = 1;

    pub const DEFAULT: u32 = 2;
}
