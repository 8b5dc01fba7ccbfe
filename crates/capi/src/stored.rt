// The store's half: arrival, taking, forgetting, joining, the view, the order of a store, a whole recording, and salvaging a damaged one.
ghost use Rattle.std.specs.Prelude.{◌≡◌, length};
ghost use Rattle.cells.specs.Order.{count_in, cell_size};
ghost use Rattle.arrival.specs.Arriving.{arrived, store_with};
ghost use Rattle.taking.specs.Taking.{took, out_with, store_less};
ghost use Rattle.taking.specs.Forgetting.{forgot, store_forgotten};
ghost use Rattle.join.specs.Joining.{joining, store_joined, out_joined};
ghost use Rattle.recording.specs.Ending.{recorded_of, out_recorded};
ghost use Rattle.salvage.specs.Listing.{stop};
ghost use Rattle.salvage.specs.Calling.{salvaged, list_after};
ghost use Rattle.walk.specs.Walk.{settings_of};
ghost use Rattle.flat_store.specs.Numbers.{arrive_numbers, take_numbers, forget_numbers, join_numbers, order_numbers};
ghost use Rattle.flat_store.specs.Views.{view_numbers};
ghost use Rattle.flat_store.specs.Recordings.{recorded_numbers, salvaged_numbers};

// A packet arrives.
#[unsafe(no_mangle)]
pub extern "C" fn orl_arrive(
    t: u64,
    profile: u64,
    store: &mut [u8],
    packet: &[u8],
    answer: &mut [u64; 4],
)
    ensures answer_after { answer.new ≡ arrive_numbers (arrived (settings_of t profile) cell_size store.old packet.now) }
    ensures store_after { store.new ≡ store_with cell_size store.old packet.now
        (arrived (settings_of t profile) cell_size store.old packet.now) }
{
    *answer = flat_store::arrive(t, profile, store, packet);
}

// A message is taken out.
#[unsafe(no_mangle)]
pub extern "C" fn orl_take(
    t: u64,
    profile: u64,
    store: &mut [u8],
    out: &mut [u8],
    answer: &mut [u64; 4],
)
    ensures answer_after { answer.new ≡ take_numbers (took (settings_of t profile) cell_size store.old (length out.old)) }
    ensures out_after { out.new ≡ out_with out.old (took (settings_of t profile) cell_size store.old (length out.old)) }
    ensures store_after { store.new ≡ store_less (settings_of t profile) cell_size store.old (count_in cell_size store.old)
        (took (settings_of t profile) cell_size store.old (length out.old)) }
{
    *answer = flat_store::take(t, profile, store, out);
}

// A taken record is forgotten.
#[unsafe(no_mangle)]
pub extern "C" fn orl_forget(
    t: u64,
    profile: u64,
    store: &mut [u8],
    number: u64,
    answer: &mut [u64; 1],
)
    ensures answer_after { answer.new ≡ forget_numbers (forgot (settings_of t profile) cell_size store.old number) }
    ensures store_after { store.new ≡ store_forgotten (settings_of t profile) cell_size store.old number }
{
    *answer = flat_store::forget(t, profile, store, number);
}

// A packet is joined.
#[unsafe(no_mangle)]
pub extern "C" fn orl_join(
    t: u64,
    profile: u64,
    store: &mut [u8],
    packet: &[u8],
    out: &mut [u8],
    answer: &mut [u64; 9],
)
    ensures answer_after { answer.new ≡ join_numbers (joining (settings_of t profile) cell_size store.old packet.now
        (length out.old)) }
    ensures store_after { store.new ≡ store_joined (settings_of t profile) cell_size store.old packet.now (length out.old) }
    ensures out_after { out.new ≡ out_joined (settings_of t profile) cell_size store.old packet.now out.old }
{
    *answer = flat_store::join(t, profile, store, packet, out);
}

// The view of a body.
#[unsafe(no_mangle)]
pub extern "C" fn orl_view(
    packet: &[u8],
    joined: &[u8],
    which: u64,
    place: u64,
    long: u64,
    answer: &mut [u64; 3],
)
    ensures { answer.new ≡ view_numbers which packet.now joined.now place long }
{
    *answer = flat_store::view(packet, joined, which, place, long);
}

// Whether a store is in order.
#[unsafe(no_mangle)]
pub extern "C" fn orl_in_order(t: u64, profile: u64, store: &[u8], answer: &mut [u64; 2])
    ensures { answer.new ≡ order_numbers (settings_of t profile) cell_size store.now }
{
    *answer = flat_store::in_order(t, profile, store);
}

// A whole recording is joined.
#[unsafe(no_mangle)]
pub extern "C" fn orl_join_recording(
    t: u64,
    profile: u64,
    recording: &[u8],
    out: &mut [u8],
    answer: &mut [u64; 4],
)
    ensures answer_after { answer.new ≡ recorded_numbers (recorded_of (settings_of t profile) (length out.old) recording.now) }
    ensures out_after { out.new ≡ out_recorded (settings_of t profile) out.old recording.now }
{
    *answer = flat_store::recordings::join_recording(t, profile, recording, out);
}

// A damaged recording is salvaged.
#[unsafe(no_mangle)]
pub extern "C" fn orl_salvage(
    t: u64,
    profile: u64,
    file: &[u8],
    begin: u64,
    place: u64,
    grant: u64,
    list: &mut [u64],
    answer: &mut [u64; 6],
)
    ensures answer_after { answer.new ≡ salvaged_numbers (salvaged (settings_of t profile) file.now (stop begin place) grant
        (length list.old)) }
    ensures list_after { list.new ≡ list_after (settings_of t profile) file.now (stop begin place) grant list.old }
{
    *answer = flat_store::recordings::salvage(t, profile, file, begin, place, grant, list);
}
