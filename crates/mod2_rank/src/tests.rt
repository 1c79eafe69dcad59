// What no clause says: that the elimination and the checks of given pivots and verdicts end well at worked columns.
ghost use Rattle.std.specs.Prelude.{◌≡◌, ◌<◌, ◌^◌, length, map, IfOk};
ghost use Rattle.mod2_rank.specs.Ascending.{AllAscend};

use crate::{Pivot, PivotRefusal, Reducers, Verdict, eliminate, is_verdict};
use obd_base::{Column, Items, NoMemory};
use std::alloc::Global;
use std::test::Fail;

// A column of these rows.
fn column(alloc: Global, rows: &[u32]) -> Result<Column, NoMemory>
    ensures { IfOk result (λ column. column.rows ≡ rows.now) }
{
    let mut items = Vec::new(alloc);
    items.extend_from_slice(rows)?;
    Ok(Column {
        rows: Items::from_vec(items),
    })
}

#[test]
fn contact_row_that_is_a_column_is_the_chain(rt: HostRuntime) -> Result<(), Fail> {
    let alloc = rt.alloc();
    let columns = [
        column(alloc, &[1])?,
        column(alloc, &[2])?,
        column(alloc, &[])?,
    ];
    let outcome = eliminate(alloc, &columns, 3)?;
    assert_eq!(rt; outcome.rank, 2);
    let pivots = [Pivot { column: 0, row: 1 }, Pivot { column: 1, row: 2 }];
    assert_eq!(rt; outcome.pivots.as_slice(), pivots.as_slice());
    let chain = match &outcome.verdict {
        Verdict::Chain(chain) => chain.as_slice() == [1].as_slice(),
        Verdict::Functional(_) => false,
    };
    assert!(rt; chain);
    Ok(())
}

#[test]
fn triangle_has_a_functional_on_all_rows(rt: HostRuntime) -> Result<(), Fail> {
    let alloc = rt.alloc();
    let columns = [
        column(alloc, &[0, 1])?,
        column(alloc, &[0, 2])?,
        column(alloc, &[1, 2])?,
    ];
    let outcome = eliminate(alloc, &columns, 3)?;
    assert_eq!(rt; outcome.rank, 2);
    let functional = match &outcome.verdict {
        Verdict::Chain(_) => false,
        Verdict::Functional(functional) => functional.as_slice() == [0, 1, 2].as_slice(),
    };
    assert!(rt; functional);
    Ok(())
}

// These numbers, as items.
fn items(alloc: Global, numbers: &[u32]) -> Result<Items<u32>, NoMemory>
    ensures { IfOk result (λ items. items ≡ numbers.now) }
{
    let mut items = Vec::new(alloc);
    items.extend_from_slice(numbers)?;
    Ok(Items::from_vec(items))
}

// The pivot of a column, with a row.
fn pivot(column: u32, row: u32) -> Pivot {
    Pivot { column, row }
}

// What given pivots tell: the first that is bad, or whether every column reduces to nothing.
#[derive(Clone, Copy, Debug, PartialEq, Eq)]
enum Told {
    Bad(u32),
    Complete,
    Incomplete,
}

// What pivots tell of columns over three rows.
fn checked(alloc: Global, columns: &[Column], pivots: &[Pivot]) -> Result<Told, NoMemory>
    requires few { length columns.now < 2 ^ 32 }
    requires few_pivots { length pivots.now < 2 ^ 32 }
    requires ascend { AllAscend 3 (map (λ column. column.rows) columns.now) }
{
    match Reducers::of(alloc, columns, 3, pivots) {
        Ok(reducers) if reducers.reduce_all(alloc, columns)? => Ok(Told::Complete),
        Ok(_) => Ok(Told::Incomplete),
        Err(PivotRefusal::Bad { at }) => Ok(Told::Bad(at)),
        Err(PivotRefusal::NoMemory) => Err(NoMemory),
    }
}

#[test]
fn given_pivots_of_a_triangle(rt: HostRuntime) -> Result<(), Fail> {
    let alloc = rt.alloc();
    let columns = [
        column(alloc, &[0, 1])?,
        column(alloc, &[0, 2])?,
        column(alloc, &[1, 2])?,
    ];
    for (pivots, wanted) in [
        ([pivot(0, 0), pivot(1, 1)], Told::Complete),
        ([pivot(0, 1), pivot(1, 2)], Told::Complete),
        ([pivot(0, 0), pivot(1, 0)], Told::Bad(1)),
        ([pivot(1, 0), pivot(0, 1)], Told::Bad(1)),
        ([pivot(0, 2), pivot(1, 0)], Told::Bad(0)),
        ([pivot(0, 0), pivot(3, 1)], Told::Bad(1)),
        ([pivot(0, 3), pivot(1, 1)], Told::Bad(0)),
    ] {
        assert_eq!(rt; checked(alloc, &columns, &pivots)?, wanted);
    }
    assert_eq!(rt; checked(alloc, &columns, &[pivot(0, 0)])?, Told::Incomplete);
    Ok(())
}

#[test]
fn given_chains(rt: HostRuntime) -> Result<(), Fail> {
    let alloc = rt.alloc();
    let columns = [
        column(alloc, &[1])?,
        column(alloc, &[1, 2])?,
        column(alloc, &[])?,
    ];
    for (numbers, wanted) in [
        ([0, 1].as_slice(), true),
        ([0, 1, 2].as_slice(), true),
        ([1, 0].as_slice(), false),
        ([1].as_slice(), false),
        ([0, 1, 3].as_slice(), false),
    ] {
        let verdict = Verdict::Chain(items(alloc, numbers)?);
        assert_eq!(rt; is_verdict(alloc, &columns, 3, &verdict)?, wanted);
    }
    Ok(())
}

#[test]
fn given_functionals(rt: HostRuntime) -> Result<(), Fail> {
    let alloc = rt.alloc();
    let columns = [
        column(alloc, &[0, 1])?,
        column(alloc, &[0, 2])?,
        column(alloc, &[1, 2])?,
    ];
    for (numbers, wanted) in [
        ([0, 1, 2].as_slice(), true),
        ([2, 1, 0].as_slice(), false),
        ([1, 2].as_slice(), false),
        ([0, 1].as_slice(), false),
        ([0, 1, 2, 3].as_slice(), false),
    ] {
        let verdict = Verdict::Functional(items(alloc, numbers)?);
        assert_eq!(rt; is_verdict(alloc, &columns, 3, &verdict)?, wanted);
    }
    Ok(())
}
