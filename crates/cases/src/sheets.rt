// Sheets, each with what reading it gives.
use console::network_of;
use network::Network;
use refusal::Refusal;
use sheet::SheetLoader;
use std::process::Abort;
use std::test::Fail;

// What a sheet has: nodes and edges, or the refusal of a line.
#[derive(Drop)]
struct Row {
    sheet: &'static [u8],
    gives: Result<(usize, usize), Refusal>,
}

const FORM_1: Result<(usize, usize), Refusal> = Err(Refusal::LineForm { line: 1 });

const FORM_2: Result<(usize, usize), Refusal> = Err(Refusal::LineForm { line: 2 });

const ENTRY_1: Result<(usize, usize), Refusal> = Err(Refusal::LineEntry { line: 1 });

const ENTRY_3: Result<(usize, usize), Refusal> = Err(Refusal::LineEntry { line: 3 });

fn check_row(rt: &(impl Abort + AllocGlobal), row: &Row) -> Result<(), Fail> {
    let mut network = Network::open(rt.alloc())?;
    let mut loader = SheetLoader::open(rt.alloc())?;
    let answer = loader.read(row.sheet, &mut network);
    let gives = answer.map(|()| (network.prizes().len(), network.edges().len()));
    assert_eq!(rt; gives, row.gives);
    Ok(())
}

#[test]
fn reads_or_refuses(rt: HostRuntime) -> Result<(), Fail> {
    let rows = [
        Row {
            sheet: b"",
            gives: Ok((0, 0)),
        },
        Row {
            sheet: b"N\t0\n",
            gives: Ok((1, 0)),
        },
        Row {
            sheet: b"N\t1000000000\n",
            gives: Ok((1, 0)),
        },
        Row {
            sheet: b"N\t1000000001\n",
            gives: ENTRY_1,
        },
        Row {
            sheet: b"N\t9999999999\n",
            gives: ENTRY_1,
        },
        Row {
            sheet: b"N\t10000000000\n",
            gives: FORM_1,
        },
        Row {
            sheet: b"N\t07\n",
            gives: FORM_1,
        },
        Row {
            sheet: b"N\t00\n",
            gives: FORM_1,
        },
        Row {
            sheet: b"N\t\n",
            gives: FORM_1,
        },
        Row {
            sheet: b"N\t-1\n",
            gives: FORM_1,
        },
        Row {
            sheet: b"N\t7",
            gives: FORM_1,
        },
        Row {
            sheet: b"N\t7\r\n",
            gives: FORM_1,
        },
        Row {
            sheet: b"N\t7\t\n",
            gives: FORM_1,
        },
        Row {
            sheet: b"N\n",
            gives: FORM_1,
        },
        Row {
            sheet: b"NN\t7\n",
            gives: FORM_1,
        },
        Row {
            sheet: b"n\t7\n",
            gives: FORM_1,
        },
        Row {
            sheet: b"\n",
            gives: FORM_1,
        },
        Row {
            sheet: b"N\t7\n\n",
            gives: FORM_2,
        },
        Row {
            sheet: b"N\t7\nN\t8",
            gives: FORM_2,
        },
    ];
    for row in &rows {
        check_row(&rt, row)?;
    }
    Ok(())
}

#[test]
fn reads_edges_or_refuses(rt: HostRuntime) -> Result<(), Fail> {
    let rows = [
        Row {
            sheet: b"N\t1\nN\t2\nS\t0\t1\t5\tA1\n",
            gives: Ok((2, 1)),
        },
        Row {
            sheet: b"N\t1\nN\t2\nS\t0\t1\t5\tA1\nN\t3\nS\t2\t0\t5\tA1\n",
            gives: Ok((3, 2)),
        },
        Row {
            sheet: b"S\t0\t1\t5\tA1\nN\t1\nN\t2\n",
            gives: ENTRY_1,
        },
        Row {
            sheet: b"N\t1\nN\t2\nS\t0\t2\t5\tA1\n",
            gives: ENTRY_3,
        },
        Row {
            sheet: b"N\t1\nN\t2\nS\t0\t9999999999\t5\tA1\n",
            gives: ENTRY_3,
        },
        Row {
            sheet: b"N\t1\nN\t2\nS\t1\t1\t5\tA1\n",
            gives: ENTRY_3,
        },
        Row {
            sheet: b"N\t1\nN\t2\nS\t0\t1\t5\t\n",
            gives: ENTRY_3,
        },
        Row {
            sheet: b"N\t1\nN\t2\nS\t0\t1\t5\tABCDEFGHI\n",
            gives: ENTRY_3,
        },
        Row {
            sheet: b"N\t1\nN\t2\nS\t0\t1\t5\ta1\n",
            gives: ENTRY_3,
        },
        Row {
            sheet: b"N\t1\nS\t0\t1\t5\n",
            gives: FORM_2,
        },
        Row {
            sheet: b"N\t1\nS\t0\t1\t5\tA1\tB\n",
            gives: FORM_2,
        },
        Row {
            sheet: b"N\t1\nS\t0\t01\t5\tA1\n",
            gives: FORM_2,
        },
        Row {
            sheet: b"N\t1\nS\t0\t1\t5\tA1",
            gives: FORM_2,
        },
    ];
    for row in &rows {
        check_row(&rt, row)?;
    }
    Ok(())
}

#[test]
fn keeps_the_network_when_refused(rt: HostRuntime) -> Result<(), Fail> {
    let mut network = Network::open(rt.alloc())?;
    let mut loader = SheetLoader::open(rt.alloc())?;
    assert_eq!(rt; loader.read(b"N\t7\nN\t8\n", &mut network), Ok(()));
    assert_eq!(rt;
        loader.read(b"N\t9\nN\t08\n", &mut network),
        Err(Refusal::LineForm { line: 2 })
    );
    assert_eq!(rt; network.prizes().first().copied(), Some(7));
    assert_eq!(rt; network.prizes().len(), 2);
    assert_eq!(rt; loader.read(b"N\t9\n", &mut network), Ok(()));
    assert_eq!(rt; network.prizes().first().copied(), Some(9));
    assert_eq!(rt; network.prizes().len(), 1);
    Ok(())
}

#[test]
fn gives_the_network_of_a_sheet(rt: HostRuntime) -> Result<(), Fail> {
    let network = network_of(rt.alloc(), b"N\t7\nN\t8\nS\t0\t1\t5\tA1\n")??;
    assert_eq!(rt; network.prizes().first().copied(), Some(7));
    assert_eq!(rt; network.prizes().len(), 2);
    assert_eq!(rt; network.edges().len(), 1);
    let refused = network_of(rt.alloc(), b"N\t7\nN\t08\n")?.map(|_| ());
    assert_eq!(rt; refused, Err(Refusal::LineForm { line: 2 }));
    Ok(())
}
