// The clock.
use std::time::SystemTime;

/// The seconds since the start of 1970, as far as they go.
pub fn now_seconds(rt: &HostRuntime) -> u32 {
    let Ok(now) = SystemTime::now(rt) else {
        return 0;
    };
    match now.duration_since(SystemTime::UNIX_EPOCH) {
        Ok(since) => u32::try_from(since.as_secs()).unwrap_or(u32::MAX),
        Err(_) => 0,
    }
}
