// The smallest generated run.
use rx_gen::{generate, summary};
use std::test::Fail;

#[test]
fn one_round(rt: HostRuntime) -> Result<(), Fail> {
    let (_program, script) = generate(rt.alloc(), 1)?;
    assert_eq!(rt;
        script.text(),
        "flush\ncall default App/Cell@9 v add 838\nflush\n"
    );
    Ok(())
}

#[test]
fn a_run_summed_up(rt: HostRuntime) -> Result<(), Fail> {
    let line = summary(rt.alloc(), 1, 1, 2, 99, b"  main\n")?;
    assert_eq!(rt;
        line.text(),
        "gen 1 dispatches 1 commits 2 nodes 99 bytes 7 sum 495\n"
    );
    Ok(())
}
