use crate::agree::compatible;
use cells::Cell;
use view::Masked;

const V: Masked = Masked::Variable {
    table: 0,
    row: 0,
    column: 0,
};

const W: Masked = Masked::Variable {
    table: 0,
    row: 0,
    column: 1,
};

/// Two pseudonyms of one domain, and one of another.
const P: Masked = Masked::Pseudonym {
    domain: 1,
    index: 0,
};

const Q: Masked = Masked::Pseudonym {
    domain: 1,
    index: 1,
};

const O: Masked = Masked::Pseudonym {
    domain: 2,
    index: 0,
};

fn number(n: u32) -> Masked {
    Masked::Value(Cell::Number(n))
}

#[test]
fn rows_that_may_and_that_cannot_be_the_same(rt: HostRuntime) {
    assert!(rt; compatible(&[V, V], &[number(1), number(1)]));
    assert!(rt; !compatible(&[V, V], &[number(1), number(2)]));
    assert!(rt; compatible(&[P, O], &[number(47), number(47)]));
    assert!(rt; !compatible(&[P, Q], &[number(47), number(47)]));
    assert!(rt; compatible(&[V, W, V], &[number(1), number(1), W]));
    assert!(rt; !compatible(&[V, W, V], &[number(1), number(2), W]));
    assert!(rt; compatible(&[number(1), number(2)], &[number(1), number(2)]));
    assert!(rt; !compatible(&[V, P], &[V, Q]));
    assert!(rt; !compatible(&[V], &[V, V]));
}

#[test]
fn identical_cells_and_rows(rt: HostRuntime) {
    assert!(rt; V != W);
    assert!(rt; P != O);
    assert!(rt; [V, P, number(1)] == [V, P, number(1)]);
    assert!(rt; [V, P] != [V, Q]);
    assert!(rt; [V].as_slice() != [V, V].as_slice());
}
