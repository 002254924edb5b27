// The records that are made, by what each is: a parameter for each word that is known then, in the order of the words.
// specs/Made says what the words are, docs/DECISIONS.md also those that are set later.
// Kept: a constructor for each record. A generic one would take twelve words by their places, and their names would be gone.
// Kept: the type, class and payload of a value one by one. Callers have the first two as columns of a row and the third from a
// copy that they made, so that a struct would be put together at each call and taken apart here.
ghost use Rattle.std.specs.Prelude.{◌≡◌};
ghost use Rattle.journal_records.specs.Made.{map_record, extern_record, node_record, reserved_record, id_record, field_record, interface_record, statement_record, route_statement_record, order_record, stored_record, scope_record, root_record, route_record, association_record, instance_record};

use crate::Record;
use sheet_rows::codes::{field, statement};
use sheet_rows::row::NONE;

const EMPTY: Record = Record {
    tag: crate::TAG_PAID,
    a: 0,
    b: 0,
    c: 0,
    d: 0,
    e: 0,
    f: 0,
    g: 0,
    h: 0,
    i: 0,
    j: 0,
    k: 0,
};

impl Record {
    // The copy of a source id in a scope.
    pub fn map_entry(home: u32, id: u32, copy: u32, past: u32, scope: u32) -> Record
        ensures { result ≡ map_record home id copy past scope }
    {
        Record {
            tag: crate::TAG_MAP,
            a: home,
            b: id,
            c: copy,
            d: past,
            e: scope,
            ..EMPTY
        }
    }

    pub fn extern_entry(document: u32, id: u32, out: u32, row: u32, slot: u32, mark: u32) -> Record
        ensures { result ≡ extern_record document id out row slot mark }
    {
        Record {
            tag: crate::TAG_EXTERN,
            a: document,
            b: id,
            c: out,
            d: row,
            e: slot,
            f: mark,
            ..EMPTY
        }
    }

    pub fn node(
        scope: u32,
        source: u32,
        ty: u32,
        def: u32,
        origin: u32,
        id: u32,
        fields: u32,
        interfaces: u32,
        statements: u32,
        order: u32,
    ) -> Record
        ensures { result ≡ node_record scope source ty def origin id fields interfaces statements order }
    {
        Record {
            tag: crate::TAG_NODE,
            a: scope,
            b: source,
            c: ty,
            d: def,
            e: origin,
            f: id,
            g: fields,
            h: interfaces,
            i: statements,
            j: order,
            ..EMPTY
        }
    }

    // A node that has no contents yet.
    pub fn reserved(scope: u32, source: u32) -> Record
        ensures { result ≡ reserved_record scope source }
    {
        Record {
            tag: crate::TAG_NODE,
            a: scope,
            b: source,
            d: NONE,
            ..EMPTY
        }
    }

    pub fn id(id: u32, before: u32) -> Record
        ensures { result ≡ id_record id before }
    {
        Record {
            tag: crate::TAG_ID,
            a: id,
            h: before,
            ..EMPTY
        }
    }

    pub fn field(name: u32, inferred: u32, ty: u32, class: u32, payload: u32, before: u32) -> Record
        ensures { result ≡ field_record name 0 0 inferred ty class payload before }
    {
        Record {
            tag: crate::TAG_FIELD,
            a: name,
            d: inferred,
            e: ty,
            f: class,
            g: payload,
            h: before,
            ..EMPTY
        }
    }

    // A field with an IS in place of a value.
    pub fn field_with_is(name: u32, target: u32, inferred: u32, before: u32) -> Record
        ensures { result ≡ field_record name 1 target inferred 0 0 0 before }
    {
        Record {
            tag: crate::TAG_FIELD,
            a: name,
            b: field::IS,
            c: target,
            d: inferred,
            h: before,
            ..EMPTY
        }
    }

    pub fn interface(
        access: u32,
        declared: u32,
        name: u32,
        target: u32,
        ty: u32,
        class: u32,
        payload: u32,
        before: u32,
    ) -> Record
        ensures { result ≡ interface_record access declared name target ty class payload before }
    {
        Record {
            tag: crate::TAG_INTERFACE,
            a: access,
            b: declared,
            c: name,
            d: target,
            e: ty,
            f: class,
            g: payload,
            h: before,
            ..EMPTY
        }
    }

    // A statement that is no ROUTE.
    pub fn statement(kind: u32, id: u32, before: u32) -> Record
        ensures { result ≡ statement_record kind id before }
    {
        Record {
            tag: crate::TAG_STATEMENT,
            a: kind,
            b: id,
            h: before,
            ..EMPTY
        }
    }

    pub fn route_statement(
        from_node: u32,
        from_field: u32,
        to_node: u32,
        to_field: u32,
        from: u32,
        to: u32,
        before: u32,
    ) -> Record
        ensures { result ≡ route_statement_record from_node from_field to_node to_field from to before }
    {
        Record {
            tag: crate::TAG_STATEMENT,
            a: statement::ROUTE,
            b: from_node,
            c: from_field,
            d: to_node,
            e: to_field,
            f: from,
            g: to,
            h: before,
            ..EMPTY
        }
    }

    // A mark of a body's order.
    pub fn order(mark: u32, before: u32) -> Record
        ensures { result ≡ order_record mark before }
    {
        Record {
            tag: crate::TAG_ORDER,
            a: mark,
            h: before,
            ..EMPTY
        }
    }

    // The value of an interface, by its name.
    pub fn stored(name: u32, ty: u32, class: u32, payload: u32, before: u32) -> Record
        ensures { result ≡ stored_record name ty class payload before }
    {
        Record {
            tag: crate::TAG_STORED,
            b: name,
            e: ty,
            f: class,
            g: payload,
            h: before,
            ..EMPTY
        }
    }

    pub fn scope(
        kind: u32,
        document: u32,
        proto: u32,
        index: u32,
        opener: u32,
        number: u32,
    ) -> Record
        ensures { result ≡ scope_record kind document proto index opener number }
    {
        Record {
            tag: crate::TAG_SCOPE,
            a: kind,
            b: document,
            c: proto,
            d: index,
            e: opener,
            f: number,
            ..EMPTY
        }
    }

    // An extra root of a scope.
    pub fn root(scope: u32, node: u32) -> Record
        ensures { result ≡ root_record scope node }
    {
        Record {
            tag: crate::TAG_ROOT,
            a: scope,
            b: node,
            ..EMPTY
        }
    }

    // A route of a scope, as it stands in the body.
    pub fn route(
        scope: u32,
        from_node: u32,
        from_field: u32,
        to_node: u32,
        to_field: u32,
        from: u32,
        to: u32,
    ) -> Record
        ensures { result ≡ route_record scope from_node from_field to_node to_field from to }
    {
        Record {
            tag: crate::TAG_ROUTE,
            a: scope,
            b: from_node,
            c: from_field,
            d: to_node,
            e: to_field,
            f: from,
            g: to,
            ..EMPTY
        }
    }

    // An IS of an instance's body: the interface, and the field that it gives a value to.
    pub fn association(scope: u32, interface: u32, node: u32, field: u32) -> Record
        ensures { result ≡ association_record scope interface node field }
    {
        Record {
            tag: crate::TAG_ASSOCIATION,
            a: scope,
            b: interface,
            c: node,
            d: field,
            ..EMPTY
        }
    }

    pub fn instance(
        scope: u32,
        name: u32,
        roots: u32,
        routes: u32,
        associations: u32,
        nested: u32,
    ) -> Record
        ensures { result ≡ instance_record scope name roots routes associations nested }
    {
        Record {
            tag: crate::TAG_INSTANCE,
            a: scope,
            b: name,
            c: roots,
            d: routes,
            e: associations,
            h: nested,
            ..EMPTY
        }
    }
}
