use cells::{build, count, field, let_go, look, make, sweep};
use cells_theory::{Cell, Field, Item, Part, Placement};
use keeper::{Fault, Layer, Refusal};
use std::test::Fail;

const BLANK: Cell = Cell {
    count: 0,
    link: 0,
    fields: [Field::Empty; 4],
};

const BOLT: Item = Item {
    article: 7001,
    quantity: 4,
};

const NUT: Item = Item {
    article: 7002,
    quantity: 4,
};

const ORIGIN: Placement = Placement { x: 0, y: 0, z: 0 };

const ALOFT: Placement = Placement {
    x: -250_000,
    y: 40,
    z: 1_200_000,
};

// Expected refusals are written out here, and not taken from the code under test.
const NO_FREE_CELL: Fault = Fault {
    refusal: Refusal::NoFreeCell,
    layer: Layer::Cells,
};

const DAMAGED: Fault = Fault {
    refusal: Refusal::Damaged,
    layer: Layer::Cells,
};

// C, B with field C, and A with field B are let go in the order C, B, A: three sweeps free A, B and C, and the fourth finds none.
#[test]
fn three_in_a_row(rt: HostRuntime) -> Result<(), Fail> {
    let none = [Field::Empty; 4];
    let mut cells = [BLANK; 5];
    let mut leaves = [NUT; 5];
    let mut heads = make(&mut cells, &mut leaves, BOLT);
    let c = build(&mut cells, &mut leaves, &mut heads, none, BOLT)?;
    let mut fields = none;
    fields[0] = Field::Cell(c);
    let b = build(&mut cells, &mut leaves, &mut heads, fields, NUT)?;
    fields[0] = Field::Cell(b);
    let a = build(&mut cells, &mut leaves, &mut heads, fields, BOLT)?;
    let_go(&mut cells, &mut heads, c);
    let_go(&mut cells, &mut heads, b);
    assert_eq!(rt; count(&cells, b), 1);
    assert_eq!(rt; field(&cells, a, 0), Ok(Field::Cell(b)));
    let_go(&mut cells, &mut heads, a);
    assert_eq!(rt; sweep(&mut cells, &leaves, &mut heads)?, Some(a));
    assert_eq!(rt; sweep(&mut cells, &leaves, &mut heads)?, Some(b));
    assert_eq!(rt; sweep(&mut cells, &leaves, &mut heads)?, Some(c));
    assert_eq!(rt; sweep(&mut cells, &leaves, &mut heads)?, None);
    Ok(())
}

// Of two cells one is free: the first build succeeds, the second is refused 14, and a waiting cell is not free before it is swept.
#[test]
fn two_cells(rt: HostRuntime) -> Result<(), Fail> {
    let none = [Field::Empty; 4];
    let mut cells = [BLANK; 2];
    let mut leaves = [ORIGIN; 2];
    let mut heads = make(&mut cells, &mut leaves, ORIGIN);
    let a = build(&mut cells, &mut leaves, &mut heads, none, ALOFT)?;
    assert_eq!(rt;
        build(&mut cells, &mut leaves, &mut heads, none, ALOFT),
        Err(NO_FREE_CELL)
    );
    let_go(&mut cells, &mut heads, a);
    assert_eq!(rt;
        build(&mut cells, &mut leaves, &mut heads, none, ALOFT),
        Err(NO_FREE_CELL)
    );
    assert_eq!(rt; sweep(&mut cells, &leaves, &mut heads)?, Some(a));
    assert_eq!(rt;
        build(&mut cells, &mut leaves, &mut heads, none, ORIGIN)?,
        a
    );
    Ok(())
}

// A look shows the leaf, numbers, and of a cell that it is one. A number that is no cell's is refused 16.
#[test]
fn looks(rt: HostRuntime) -> Result<(), Fail> {
    let mut cells = [BLANK; 3];
    let mut leaves = [ORIGIN; 3];
    let mut heads = make(&mut cells, &mut leaves, ORIGIN);
    let fields = [
        Field::Number(9),
        Field::Cell(0),
        Field::Empty,
        Field::Cell(0),
    ];
    let a = build(&mut cells, &mut leaves, &mut heads, fields, ALOFT)?;
    let shown = look(&cells, &leaves, a)?;
    assert_eq!(rt; shown.leaf, ALOFT);
    assert_eq!(rt; shown.parts[0], Part::Number(9));
    assert_eq!(rt; shown.parts[1], Part::Cell);
    assert_eq!(rt; shown.parts[2], Part::Empty);
    assert_eq!(rt; count(&cells, 0), 3);
    assert!(rt; look(&cells, &leaves, 3).is_err());
    assert_eq!(rt; field(&cells, 3, 0), Err(DAMAGED));
    assert_eq!(rt;
        build(
            &mut cells,
            &mut leaves,
            &mut heads,
            [Field::Cell(3), Field::Empty, Field::Empty, Field::Empty],
            ALOFT,
        ),
        Err(DAMAGED)
    );
    Ok(())
}

// A chain 60,000 deep is built, and taken apart by one sweep for each cell.
#[test]
fn sixty_thousand_deep(rt: HostRuntime) -> Result<(), Fail> {
    let mut cells = vec![in rt.alloc(); BLANK; 60_001]?;
    let mut leaves = vec![in rt.alloc(); NUT; 60_001]?;
    let mut heads = make(&mut cells, &mut leaves, BOLT);
    let mut top = 0;
    for _ in 0..60_000 {
        let fields = [
            Field::Empty,
            Field::Empty,
            Field::Cell(top),
            Field::Number(1),
        ];
        let next = build(&mut cells, &mut leaves, &mut heads, fields, BOLT)?;
        let_go(&mut cells, &mut heads, top);
        top = next;
    }
    assert_eq!(rt;
        build(&mut cells, &mut leaves, &mut heads, [Field::Empty; 4], BOLT),
        Err(NO_FREE_CELL)
    );
    let_go(&mut cells, &mut heads, top);
    for _ in 0..60_001 {
        assert!(rt; sweep(&mut cells, &leaves, &mut heads)?.is_some());
    }
    assert_eq!(rt; sweep(&mut cells, &leaves, &mut heads)?, None);
    Ok(())
}
