//! What stops leave of an image by small traces, worked out by hand: each row is a contract, for both grains.

ghost use Rattle.live_image.specs.StopRows.{OpensAtEachStop, IsLiveAfterTwoStops, HasCellsAtEachStop, LosesATableByte};

fn a_commit_whose_write_holds_the_live_bytes_opens_at_each_stop()
    ensures narrow { OpensAtEachStop 512 }
    ensures wide { OpensAtEachStop 4096 }
{}

fn live_bytes_outlast_two_stops()
    ensures narrow { IsLiveAfterTwoStops 512 }
    ensures wide { IsLiveAfterTwoStops 4096 }
{}

fn cells_outlast_a_write_that_holds_the_live_bytes()
    ensures narrow { HasCellsAtEachStop 512 }
    ensures wide { HasCellsAtEachStop 4096 }
{}

fn a_byte_of_the_active_table_is_live()
    ensures narrow { LosesATableByte 512 }
    ensures wide { LosesATableByte 4096 }
{}

#[test]
fn rows_hold() {
    a_commit_whose_write_holds_the_live_bytes_opens_at_each_stop();
    live_bytes_outlast_two_stops();
    cells_outlast_a_write_that_holds_the_live_bytes();
    a_byte_of_the_active_table_is_live();
}
