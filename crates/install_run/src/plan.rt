// The line of a plan that is refused.
ghost use Rattle.std.specs.Prelude.{◌≡◌, ◌++◌, codes, decimal};
ghost use Rattle.lilo_model.specs.ConfOptions.{opt_name};
ghost use Rattle.lilo_model.specs.Partitions.{device_fault};
ghost use Rattle.lilo_model.specs.PlanRefusal.{address_text};
ghost use Rattle.lilo_model.specs.Refusal.{device_text};
ghost use Rattle.stream_trait.specs.Shows.{Shows, sink_of};
ghost use Rattle.conf_settings.specs.View.{opt_view};
ghost use Rattle.mbr_table.specs.View.{table_fault_view};
ghost use Rattle.sector_address.specs.View.{address_fault_view};
ghost use Rattle.install_run.specs.Texts.{plan_status, plan_text};

use crate::text::{show_line, show_numbered};
use conf_settings::Opt;
use map_plan::PlanFault;
use mbr_table::TableFault;
use sector_address::AddressFault;
use stream_trait::{Shown, Sink};

// Shows what is wrong with an address.
fn show_end<O: Sink>(fault: AddressFault, out: &mut Shown<'_, O>)
    ensures shown { Shows (sink_of O.Sink out.old) (address_text (address_fault_view fault) ++ codes "\n")
        (sink_of O.Sink out.new) }
    ensures same_reference { out.new.out.ghost_name ≡ out.old.out.ghost_name }
{
    match fault {
        AddressFault::Cylinder(cylinder) => show_numbered(
            b" cylinder ",
            cylinder,
            b" over 1023\n",
            out,
        ),
        AddressFault::TooFar(sector) => show_numbered(
            b" sector ",
            sector,
            b" over 4294967295\n",
            out,
        ),
        AddressFault::BadSlot | AddressFault::NotFound => out.put(b"\n"),
    }
}

// Shows an option and what is wrong with an address of its file or device.
fn show_address<O: Sink>(option: Opt, fault: AddressFault, out: &mut Shown<'_, O>)
    ensures shown { Shows (sink_of O.Sink out.old)
        (codes "address: " ++ opt_name (opt_view option) ++ address_text (address_fault_view fault) ++ codes "\n")
        (sink_of O.Sink out.new) }
    ensures same_reference { out.new.out.ghost_name ≡ out.old.out.ghost_name }
{
    out.put(b"address: ");
    out.put(option.name());
    show_end(fault, out);
}

// Shows an option between two texts, a number and a text.
fn show_option<O: Sink>(
    text: &[u8],
    option: Opt,
    middle: &[u8],
    number: u64,
    end: &[u8],
    out: &mut Shown<'_, O>,
)
    ensures shown { Shows (sink_of O.Sink out.old)
        (text.now ++ opt_name (opt_view option) ++ middle.now ++ decimal number ++ end.now) (sink_of O.Sink out.new) }
    ensures same_reference { out.new.out.ghost_name ≡ out.old.out.ghost_name }
{
    out.put(text);
    out.put(option.name());
    show_numbered(middle, number, end, out);
}

// Shows why a device isn't found.
fn show_table<O: Sink>(fault: TableFault, out: &mut Shown<'_, O>)
    ensures shown { Shows (sink_of O.Sink out.old)
        (codes "volume: " ++ device_text (device_fault (table_fault_view fault)) ++ codes "\n")
        (sink_of O.Sink out.new) }
    ensures same_reference { out.new.out.ghost_name ≡ out.old.out.ghost_name }
{
    match fault {
        TableFault::NoDisk(_) => out.put(b"volume: no disk\n"),
        TableFault::NoPartition(_) => out.put(b"volume: no partition\n"),
        TableFault::NoSignature(_)
        | TableFault::OutsideDisk(_)
        | TableFault::LoopedChain(_)
        | TableFault::TooMany
        | TableFault::UnknownDevice
        | TableFault::Device => out.put(b"volume: table\n"),
    }
}

/// Shows why no map is planned.
pub(crate) fn show_plan<O: Sink>(fault: &PlanFault, out: &mut Shown<'_, O>)
    ensures shown { Shows (sink_of O.Sink out.old) (plan_text fault.now) (sink_of O.Sink out.new) }
    ensures same_reference { out.new.out.ghost_name ≡ out.old.out.ghost_name }
{
    match fault {
        PlanFault::Missing(text) => show_line(b"volume: missing ", text.bytes(), out),
        PlanFault::NoImagesLeft => out.put(b"volume: no images left\n"),
        PlanFault::Header(path, _) => show_line(b"address: header ", path.bytes(), out),
        PlanFault::Address(option, fault) => show_address(*option, *fault, out),
        PlanFault::TooManySlots(option, slots) => {
            show_option(
                b"address: ",
                *option,
                b" slots ",
                u64::from(*slots),
                b" over 4128705\n",
                out,
            )
        }
        PlanFault::GeometryDiffers(option, have) => {
            show_option(
                b"address: geometry ",
                *option,
                b" is ",
                u64::from(*have),
                b"\n",
                out,
            )
        }
        PlanFault::OtherIsBoot(path) => show_line(b"address: other is boot ", path.bytes(), out),
        PlanFault::NoSignature(path) => show_line(b"address: no signature ", path.bytes(), out),
        PlanFault::MessageTooLong(size) => {
            show_numbered(
                b"address: message ",
                u64::from(*size),
                b" over 65535\n",
                out,
            )
        }
        PlanFault::Table(fault) => show_table(*fault, out),
        PlanFault::Tree(path, _) => show_line(b"volume: path ", path.bytes(), out),
        PlanFault::Device => out.put(b"device\n"),
        PlanFault::Memory => out.put(b"memory\n"),
    }
}

/// The exit status of a plan that is refused.
pub(crate) fn plan_status(fault: &PlanFault) -> u8
    ensures { result ≡ plan_status fault.now }
{
    match fault {
        PlanFault::Missing(_)
        | PlanFault::NoImagesLeft
        | PlanFault::Table(_)
        | PlanFault::Tree(_, _) => 3,
        PlanFault::Header(_, _)
        | PlanFault::Address(_, _)
        | PlanFault::TooManySlots(_, _)
        | PlanFault::GeometryDiffers(_, _)
        | PlanFault::OtherIsBoot(_)
        | PlanFault::NoSignature(_)
        | PlanFault::MessageTooLong(_) => 4,
        PlanFault::Device => 8,
        PlanFault::Memory => 13,
    }
}
