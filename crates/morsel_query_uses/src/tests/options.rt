//! The numbers by which a query is run: each at its edges and past them.
use morsel_meaning::{Fault, Why};
use morsel_query::{Options, ahead};
use std::test::Fail;

/// The standard numbers with another number of this place, from 0 to 5.
fn with(place: usize, n: u32) -> Result<Options, Fault> {
    let mut numbers = [4, 100_000, 65_536, 4, 4, 16_777_216];
    if place < 6 {
        numbers[place] = n;
    }
    let [
        workers,
        morsel_rows,
        chunk_bytes,
        distributor_buffer,
        linearizer_buffer,
        min_values,
    ] = numbers;
    Options::new(
        workers,
        morsel_rows,
        chunk_bytes,
        distributor_buffer,
        linearizer_buffer,
        min_values,
        7,
    )
}

/// Whether these numbers are refused for their range.
fn is_out_of_range(made: Result<Options, Fault>) -> bool {
    matches!(
        made,
        Err(Fault::InvalidQuery {
            why: Why::OptionRange
        })
    )
}

#[test]
fn each_number_has_its_range(rt: HostRuntime) -> Result<(), Fail> {
    let most = [32_768, u32::MAX, u32::MAX, 65_536, 65_536, u32::MAX];
    for (place, most) in most.iter().enumerate() {
        assert!(rt; is_out_of_range(with(place, 0)), "0 at {place}");
        assert!(rt; with(place, 1).is_ok(), "1 at {place}");
        assert!(rt; with(place, *most).is_ok(), "the greatest at {place}");
        if *most < u32::MAX {
            assert!(rt;
                is_out_of_range(with(place, *most + 1)),
                "past the greatest at {place}"
            );
        }
    }
    Ok(())
}

#[test]
fn the_standard_options_read_four_pieces_for_each_worker_ahead(
    rt: HostRuntime,
) -> Result<(), Fail> {
    let options = Options::standard();
    assert_eq!(rt; options.workers(), 4);
    assert_eq!(rt; options.morsel_rows(), 100_000);
    assert_eq!(rt; options.chunk_bytes(), 65_536);
    assert_eq!(rt; options.distributor_buffer(), 4);
    assert_eq!(rt; options.linearizer_buffer(), 4);
    assert_eq!(rt; options.min_values_per_task(), 16_777_216);
    assert_eq!(rt; options.random_state(), 0);
    assert_eq!(rt; ahead(&options), 160);
    Ok(())
}
