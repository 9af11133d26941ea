// What is known of what an installation answers and rests on, as laws, which no code needs to call.
ghost use Rattle.install_run.specs.Entry.{DevicesStayLaw, EntryAnswerLaw};

/// Where nothing that is read rests on what settling changes, an installation answers as the model does by the image at
/// its entry.
pub fn installations_answer_by_their_entry()
    ensures { EntryAnswerLaw }
{}

/// Devices that lie where tables outside the volume say stay there as names are settled.
pub fn devices_outside_the_volume_stay()
    ensures { DevicesStayLaw }
{}
