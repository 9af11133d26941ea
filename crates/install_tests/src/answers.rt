// What is answered of refusals that no image of the scripts comes to.
use conf_settings::Opt;
use disk_trait::Phase;
use install_order::InstallFault;
use install_run::{fault_line, fault_status};
use map_plan::PlanFault;
use sector_address::AddressFault;
use std::alloc::Global;
use std::mem::drop;
use std::test::Fail;
use stream_trait::MemSink;

#[derive(Clone, Copy)]
enum Refusal {
    // No slot names a sector of this number, and there are too many slots.
    TooFar(u64),
    Slots(u32),
    Memory,
}

// A refusal, the call of the sink that fails, whether the line is put, its status and what is put.
struct Row {
    refusal: Refusal,
    call: u64,
    is_put: bool,
    status: u8,
    line: &'static [u8],
}

const ROWS: &[Row] = &[
    Row {
        refusal: Refusal::TooFar(4_294_967_296),
        call: 99,
        is_put: true,
        status: 4,
        line: b"address: map sector 4294967296 over 4294967295\n",
    },
    Row {
        refusal: Refusal::Slots(4_128_706),
        call: 99,
        is_put: true,
        status: 4,
        line: b"address: initrd slots 4128706 over 4128705\n",
    },
    Row {
        refusal: Refusal::Memory,
        call: 99,
        is_put: true,
        status: 13,
        line: b"memory\n",
    },
    Row {
        refusal: Refusal::Memory,
        call: 0,
        is_put: false,
        status: 13,
        line: b"",
    },
];

fn fault_of(refusal: Refusal) -> InstallFault {
    match refusal {
        Refusal::TooFar(sector) => InstallFault::Plan(PlanFault::Address(
            Opt::Map,
            AddressFault::TooFar(sector),
        )),
        Refusal::Slots(count) => InstallFault::Plan(PlanFault::TooManySlots(Opt::Initrd, count)),
        Refusal::Memory => InstallFault::Memory,
    }
}

// Whether a refusal is answered so.
fn answers(alloc: Global, row: &Row) -> bool {
    let Ok(mut sink) = MemSink::new(alloc, 128, &[row.call]) else {
        return false;
    };
    let fault = fault_of(row.refusal);
    let is_put = fault_line(&fault, Phase::Before, &mut sink).is_ok();
    let status = fault_status(&fault, Phase::Before);
    drop(fault);
    is_put == row.is_put && sink.bytes() == row.line && status == row.status
}

#[test]
fn refusals_have_their_lines(rt: HostRuntime) -> Result<(), Fail> {
    for row in ROWS {
        assert!(rt; answers(rt.alloc(), row));
    }
    Ok(())
}
