// Work lists of small networks.
use network::Network;
use refusal::Refusal;
use sheet::SheetLoader;
use std::process::Abort;
use std::test::Fail;
use worklist::work_list;

const CHAIN: &[u8] =
    b"N\t1\nN\t2\nN\t2\nN\t100\nN\t100\nS\t0\t1\t6\tA1\nS\t1\t2\t2\tA2\nS\t2\t3\t10\tB1\nS\t3\t4\t90\tA10\n";

fn load(rt: &(impl Abort + AllocGlobal), sheet: &[u8]) -> Result<Network, Fail> {
    let mut network = Network::open(rt.alloc())?;
    let mut loader = SheetLoader::open(rt.alloc())?;
    assert_eq!(rt; loader.read(sheet, &mut network), Ok(()));
    Ok(network)
}

#[test]
fn lists_the_chain(rt: HostRuntime) -> Result<(), Fail> {
    let network = load(&rt, CHAIN)?;
    let mut out = [9u16; 6];
    assert_eq!(rt; work_list(&network, &[1, 1, 1, 1], &mut out), Ok(4));
    assert_eq!(rt; out, [0, 3, 1, 2, 9, 9]);
    assert_eq!(rt; work_list(&network, &[2, 1, 0, 1, 1], &mut out), Ok(2));
    assert_eq!(rt; out, [3, 1, 1, 2, 9, 9]);
    Ok(())
}

#[test]
fn puts_equal_codes_by_number_and_a_code_before_its_continuation(
    rt: HostRuntime,
) -> Result<(), Fail> {
    let network = load(
        &rt,
        b"N\t1\nN\t2\nS\t0\t1\t1\tB\nS\t0\t1\t1\tAB\nS\t0\t1\t1\tA\nS\t0\t1\t1\tB\nS\t1\t0\t1\tA9\n",
    )?;
    let mut out = [0u16; 5];
    assert_eq!(rt; work_list(&network, &[1; 5], &mut out), Ok(5));
    assert_eq!(rt; out, [2, 4, 1, 0, 3]);
    Ok(())
}

#[test]
fn refuses_short_lists_and_writes_nothing(rt: HostRuntime) -> Result<(), Fail> {
    let network = load(&rt, CHAIN)?;
    let mut out = [9u16; 3];
    assert_eq!(rt;
        work_list(&network, &[1, 1, 1], &mut out),
        Err(Refusal::ListTooShort)
    );
    assert_eq!(rt;
        work_list(&network, &[1, 1, 1, 1], &mut out),
        Err(Refusal::ListTooShort)
    );
    assert_eq!(rt; out, [9, 9, 9]);
    assert_eq!(rt; work_list(&network, &[1, 0, 1, 1], &mut out), Ok(3));
    assert_eq!(rt; out, [0, 3, 2]);
    Ok(())
}
