//! The replies that come before the rules, or in place of them. Their bodies take no memory.

ghost use Rattle.std.specs.Prelude.{◌≡◌};
ghost use Rattle.http.specs.StatusCode.{IsStatusCode};
ghost use Rattle.desk_replies.specs.Replies.{http_code, http_body, store_body, memory_body};

use desk_requests::HttpRefusal;

/// The code of a refusal.
pub fn http_code(refusal: HttpRefusal) -> u16
    ensures code { result ≡ http_code refusal }
    ensures valid { IsStatusCode result }
{
    match refusal {
        HttpRefusal::BadRequest => 400,
        HttpRefusal::NotFound => 404,
        HttpRefusal::BadMethod => 405,
        HttpRefusal::NoLength => 411,
        HttpRefusal::BodyTooLarge => 413,
        HttpRefusal::HeadTooLarge => 431,
        HttpRefusal::NoCoding => 501,
    }
}

/// The body of a refusal.
pub fn http_body(refusal: HttpRefusal) -> &'static str
    ensures { result.now ≡ http_body refusal }
{
    match refusal {
        HttpRefusal::BadRequest => "{\"name\":\"BadRequest\",\"rule\":0,\"value\":\"\"}",
        HttpRefusal::NotFound => "{\"name\":\"NotFound\",\"rule\":0,\"value\":\"\"}",
        HttpRefusal::BadMethod => "{\"name\":\"BadMethod\",\"rule\":0,\"value\":\"\"}",
        HttpRefusal::NoLength => "{\"name\":\"NoLength\",\"rule\":0,\"value\":\"\"}",
        HttpRefusal::BodyTooLarge => "{\"name\":\"BodyTooLarge\",\"rule\":0,\"value\":\"\"}",
        HttpRefusal::HeadTooLarge => "{\"name\":\"HeadTooLarge\",\"rule\":0,\"value\":\"\"}",
        HttpRefusal::NoCoding => "{\"name\":\"NoCoding\",\"rule\":0,\"value\":\"\"}",
    }
}

/// The body of a reply where the keeper failed, with the code 503.
pub fn store_body() -> &'static str
    ensures { result.now ≡ store_body }
{
    "{\"name\":\"StoreFault\",\"rule\":0,\"value\":\"\"}"
}

/// The body of a reply for want of memory, with the code 507.
pub fn memory_body() -> &'static str
    ensures { result.now ≡ memory_body }
{
    "{\"name\":\"NoMemory\",\"rule\":0,\"value\":\"\"}"
}
