use crate::crowd::on_board;
use crate::plan::{Cells, Plan};
use crate::replay::replays;
use std::test::Fail;

#[test]
fn history_of_sixteen_threads_replays_and_no_cell_is_left_full(
    rt: HostRuntime,
) -> Result<(), Fail> {
    for cells in [Cells::One, Cells::Own] {
        let plan = Plan {
            sessions: 16,
            actions: 1000,
            cells,
        };
        let run = on_board(&rt, rt.alloc(), plan)?;
        assert_eq!(rt; run.history.len(), 16000);
        assert!(rt; replays(run.history.as_slice()));
        assert_eq!(rt; run.full, 0);
    }
    Ok(())
}
