// Networks written as sheets.
use network::Network;
use refusal::Refusal;
use sheet::{SheetLoader, write_sheet};
use std::process::Abort;
use std::test::Fail;

const NODES_LAST: &[u8] = b"N\t1\nN\t2\nS\t0\t1\t6\tA1\nN\t2\n";

const STANDARD: &[u8] = b"N\t1\nN\t2\nN\t2\nS\t0\t1\t6\tA1\n";

// The sheet that a sheet is written back as, in a list of 30 bytes.
fn rewritten(
    rt: &(impl Abort + AllocGlobal),
    sheet: &[u8],
) -> Result<(Result<usize, Refusal>, [u8; 30]), Fail> {
    let mut network = Network::open(rt.alloc())?;
    let mut loader = SheetLoader::open(rt.alloc())?;
    assert_eq!(rt; loader.read(sheet, &mut network), Ok(()));
    let mut out = [b'.'; 30];
    let answer = write_sheet(&network, &mut out);
    Ok((answer, out))
}

#[test]
fn writes_nodes_first(rt: HostRuntime) -> Result<(), Fail> {
    let (answer, out) = rewritten(&rt, NODES_LAST)?;
    assert_eq!(rt; answer, Ok(STANDARD.len()));
    assert_eq!(rt; &out, b"N\t1\nN\t2\nN\t2\nS\t0\t1\t6\tA1\n.......");
    let (answer, again) = rewritten(&rt, STANDARD)?;
    assert_eq!(rt; answer, Ok(STANDARD.len()));
    assert_eq!(rt; again, out);
    Ok(())
}

#[test]
fn writes_an_empty_network(rt: HostRuntime) -> Result<(), Fail> {
    let (answer, out) = rewritten(&rt, b"")?;
    assert_eq!(rt; answer, Ok(0));
    assert_eq!(rt; out, [b'.'; 30]);
    Ok(())
}

#[test]
fn refuses_a_short_list(rt: HostRuntime) -> Result<(), Fail> {
    let (answer, out) = rewritten(&rt, b"N\t1000000000\nN\t1000000000\nN\t100000\n")?;
    assert_eq!(rt; answer, Err(Refusal::ListTooShort));
    assert_eq!(rt; out, [b'.'; 30]);
    Ok(())
}

// The fullest network: every line is as long as it can be.
fn fullest(rt: &HostRuntime) -> Result<Network, Fail> {
    let mut network = Network::open(rt.alloc())?;
    for _ in 0..256u32 {
        let _ = network.add_node(1_000_000_000);
    }
    for _ in 0..1024u32 {
        let _ = network.add_edge(254, 255, 1_000_000_000, b"CODE2026");
    }
    Ok(network)
}

#[test]
fn writes_the_longest_sheet_and_reads_it_back(rt: HostRuntime) -> Result<(), Fail> {
    let network = fullest(&rt)?;
    let mut text = [0u8; 34_048];
    assert_eq!(rt; write_sheet(&network, &mut text), Ok(34_048));
    let mut back = Network::open(rt.alloc())?;
    let mut loader = SheetLoader::open(rt.alloc())?;
    assert_eq!(rt; loader.read(&text, &mut back), Ok(()));
    assert_eq!(rt; back.prizes().len(), 256);
    assert_eq!(rt; back.edges().len(), 1024);
    Ok(())
}
