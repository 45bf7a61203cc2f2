// Laws of runs and of the same scripts in Sync.
ghost use Rattle.rx_ast.specs.Syntax.{Program};
ghost use Rattle.rx_model.specs.Turns.{AnyRender};
ghost use Rattle.sync_laws.specs.Sync.{LanesLaw, ReportsCloseAlike, SyncLaw};

/// In what steady runs show if they end quiet, neither the lanes of dispatches count nor when renders are made: it hangs on
/// the dispatches and the resolutions alone, in their order.
pub fn lanes_do_not_show()
    ensures { (p : Program) → LanesLaw AnyRender AnyRender p }
{}

/// A run of a script and a run of the same script with the lane Sync in each dispatch and a flush after it: if both are
/// steady and both end quiet, their ends show the same tree of hosts, as text, and the same hooks. So the reports of a script
/// that closes with `tree` and `state` close with the same bytes.
pub fn sync_runs_show_the_same()
    ensures ends { (p : Program) → SyncLaw AnyRender AnyRender p }
    ensures reports { (p : Program) → ReportsCloseAlike AnyRender AnyRender p }
{}
