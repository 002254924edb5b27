#![tactic(auto)]
// The columns of a row, by its kind (document 01, Sheets, the table).
ghost use Rattle.std.specs.Prelude.{◌≡◌};
ghost use Rattle.sheet_shape.specs.Shape.{is_name, zero_from_b, zero_from_c, zero_from_e, has_value, origin_fits, node_fits, field_fits, interface_fits, route_fits, statement_fits, order_fits, name_fits, url_fits, top_fits, instance_fits, association_fits, shape_fits};

use sheet_rows::codes::{class, field, kind, mark, origin, statement};
use sheet_rows::row::{NONE, Row};

// The last of the types of a value, and the last of the ways that an interface is used.
const LAST_TYPE: u32 = 41;

const LAST_ACCESS: u32 = 3;

fn is_name(n: u32) -> bool
    ensures { result ≡ is_name n }
{
    n < NONE
}

// Kept: each test of unused columns names its own and goes on with the next; a row's columns are fields and have no index.
fn zero_from_e(r: Row) -> bool
    ensures { result ≡ zero_from_e r }
{
    (r.e == 0) & (r.f == 0) & (r.g == 0)
}

fn zero_from_c(r: Row) -> bool
    ensures { result ≡ zero_from_c r }
{
    (r.c == 0) & (r.d == 0) & zero_from_e(r)
}

fn zero_from_b(r: Row) -> bool
    ensures { result ≡ zero_from_b r }
{
    (r.b == 0) & zero_from_c(r)
}

fn has_value(r: Row) -> bool
    ensures { result ≡ has_value r }
{
    (r.e <= LAST_TYPE) & (class::PAYLOAD <= r.f) & (r.f <= class::NODES)
}

fn origin_fits(r: Row) -> bool
    ensures { result ≡ origin_fits r }
{
    let has_id = (r.c == origin::PROTO) | (r.c == origin::EXTERN_PROTO);
    (r.c <= origin::UNKNOWN) & (has_id & is_name(r.d) | !has_id & (r.d == 0))
}

fn node_fits(r: Row) -> bool
    ensures { result ≡ node_fits r }
{
    is_name(r.a) & origin_fits(r) & zero_from_e(r)
}

fn field_fits(r: Row) -> bool
    ensures { result ≡ field_fits r }
{
    let value = (r.b == field::VALUE) & (r.c == 0) & has_value(r);
    let is = (r.b == field::IS) & is_name(r.c) & zero_from_e(r);
    is_name(r.a) & (r.d <= 1) & (value | is)
}

fn interface_fits(r: Row) -> bool
    ensures { result ≡ interface_fits r }
{
    (r.a <= LAST_ACCESS) & (r.b <= LAST_TYPE) & is_name(r.c) & (has_value(r) | zero_from_e(r))
}

fn route_fits(r: Row) -> bool
    ensures { result ≡ route_fits r }
{
    (r.a == statement::ROUTE) & is_name(r.b) & is_name(r.c) & is_name(r.d) & is_name(r.e)
}

fn statement_fits(r: Row) -> bool
    ensures { result ≡ statement_fits r }
{
    let id = (r.a <= statement::EXTERN_PROTO) & is_name(r.b) & zero_from_c(r);
    let other = (r.a == statement::OTHER) & zero_from_c(r);
    id | route_fits(r) | other
}

fn order_fits(r: Row) -> bool
    ensures { result ≡ order_fits r }
{
    (r.a <= mark::STATEMENT) & zero_from_b(r)
}

fn name_fits(r: Row) -> bool
    ensures { result ≡ name_fits r }
{
    is_name(r.a) & zero_from_b(r)
}

fn url_fits(marks: bool, r: Row) -> bool
    ensures { result ≡ url_fits marks r }
{
    is_name(r.a) & (r.c <= u32::from(marks)) & (r.d == 0) & zero_from_e(r)
}

fn top_fits(r: Row) -> bool
    ensures { result ≡ top_fits r }
{
    (r.a == 0) & zero_from_b(r)
}

fn instance_fits(r: Row) -> bool
    ensures { result ≡ instance_fits r }
{
    is_name(r.a) & zero_from_e(r)
}

fn association_fits(r: Row) -> bool
    ensures { result ≡ association_fits r }
{
    is_name(r.a) & is_name(r.b) & is_name(r.c) & (r.d == 0) & zero_from_e(r)
}

#[tactic(auto, unfolding(crate::specs::Shape::shape_fits))]
// Column 1 decides the row's shape; `marks`: whether a url may have one.
pub fn shape_fits(marks: bool, r: Row) -> bool
    ensures { result ≡ shape_fits marks r }
{
    match r.kind {
        kind::DOCUMENT => zero_from_b(r),
        kind::NODE => node_fits(r),
        kind::FIELD => field_fits(r),
        kind::INTERFACE => interface_fits(r),
        kind::STATEMENT => statement_fits(r),
        kind::ORDER => order_fits(r),
        kind::PROTO..=kind::ID | kind::FILE => name_fits(r),
        kind::URL => url_fits(marks, r),
        kind::TOP => top_fits(r),
        kind::INSTANCE => instance_fits(r),
        kind::ASSOCIATION => association_fits(r),
        _ => false,
    }
}
